// An order of the sixteen channels (R14.3), for every list of bytes. Assumes nothing.
#![tactic(auto)]

ghost use Rattle.std.specs.Prelude.{◌≡◌, ◌+◌, eqb};
ghost use Rattle.order.specs.Order.{each, times, order_of};

// How often channel c stands in the order. A `for`, since a chain's count makes a log's begin five times dearer.
fn times(order: [u8; 16], c: u8) -> u8
    ensures { result ≡ times order c }
{
    let mut n: u8 = 0;
    for x in &order {
        n += u8::from(*x == c);
    }
    n
}

// Each of the channels 1 to 16 stands there once.
fn all_once(order: [u8; 16]) -> bool
    ensures { result ≡ each (λ i. eqb (times order (i + 1)) 1) 16 }
{
    (0..16).all(|i| times(order, i + 1) == 1)
}

// The order that some bytes are: all sixteen channels, by falling priority.
pub fn read(order: &[u8]) -> Option<[u8; 16]>
    ensures { result ≡ order_of order.now }
{
    let order = <[u8; 16]>::try_from(order).ok()?;
    all_once(order).then_some(order)
}
