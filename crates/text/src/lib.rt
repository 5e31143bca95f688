// Text in a page of bytes, in which a program collects its output so that one write carries many lines. A text goes to
// a place of the page, as far as there is room for it, and the answer is the place behind it. Assumes nothing.
#![tactic(auto)]

ghost use Rattle.std.specs.Prelude.{◌<◌, ◌≡◌, [], ◌∷◌};
ghost use Rattle.text.specs.Text.{Put, decimal, hex_digit, blank_at, hexadecimal, hexadecimals};

pub fn put_byte(page: &mut [u8], at: usize, b: u8) -> usize
    ensures { Put page.old at (b ∷ []) result page.new }
{
    if at < page.len() {
        page[at] = b;
        return at + 1;
    }
    at
}

pub fn put(page: &mut [u8], at: usize, text: &[u8]) -> usize
    ensures { Put page.old at text.now result page.new }
{
    let mut k = at;
    for &b in text {
        k = put_byte(page, k, b);
    }
    k
}

// A number in decimal, without leading zeros.
pub fn put_number(page: &mut [u8], at: usize, n: u64) -> usize
    ensures { Put page.old at (decimal n) result page.new }
{
    let mut digits = [0u8; 20];
    let k = io::decimal(n, &mut digits);
    put(page, at, &digits[..k])
}

#[tactic(auto, unfolding(crate::specs::Text::hex_digit))]
fn hex_digit(d: u8) -> u8
    requires { d < 16 }
    ensures { result ≡ hex_digit d }
{
    if d < 10 { b'0' + d } else { b'A' + (d - 10) }
}

fn put_hex(page: &mut [u8], at: usize, b: u8) -> usize
    ensures { Put page.old at (hexadecimal b) result page.new }
{
    let k = put_byte(page, at, hex_digit(b / 16));
    put_byte(page, k, hex_digit(b % 16))
}

// What parts the byte at i from the one before it.
fn put_blank(page: &mut [u8], at: usize, i: usize) -> usize
    ensures { Put page.old at (blank_at i) result page.new }
{
    if i == 0 { at } else { put_byte(page, at, b' ') }
}

// Bytes as two hexadecimal digits each, capital ones, with a blank between each two bytes.
pub fn put_bytes(page: &mut [u8], at: usize, bytes: &[u8]) -> usize
    ensures { Put page.old at (hexadecimals bytes.now) result page.new }
{
    let mut k = at;
    for (i, &b) in bytes.iter().enumerate() {
        let l = put_blank(page, k, i);
        k = put_hex(page, l, b);
    }
    k
}
