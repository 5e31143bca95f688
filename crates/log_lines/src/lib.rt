// The text of the program `arrange` (R17.4): a line with the order of the channels, sixteen decimal numbers with a
// comma between each two, and behind it the log; and what the answer is in bytes and in a line. The message is crate
// `arranging`'s, and reading and writing are the program's. Assumes nothing.
#![tactic(auto)]

ghost use Rattle.std.specs.Prelude.{◌+◌, ◌≤◌, ◌≡◌, ◌++◌, length, take};
ghost use Rattle.text.specs.Text.{Put};
ghost use Rattle.arranging.specs.Run.{begun};
ghost use Rattle.log_lines.specs.LogLines.{new_order, lost, put_away, order_byte, usable, order_in};
ghost use Rattle.log_lines.specs.LogLines.{new_reading, bytes_read, ended, is_known, message_of, written_line};
ghost use Rattle.log_lines.specs.declared.Reading.TheVariants.{Order};

use arranging::{Run, Written};
use fields::Line;
use text::{put, put_number};

// The order's line as far as it is read.
#[derive(Clone, Copy)]
pub struct OrderLine {
    // The number that is read.
    pub number: Line,
    // How many stand before it; from 16 on the line is no order.
    pub count: u8,
    // Those, one above 255, which is no channel, as 255; zeros behind them.
    pub channels: [u8; 16],
}

// An input as far as it is read.
#[derive(Clone, Copy)]
pub enum Reading {
    // The order's line has not ended.
    Order(OrderLine),
    // The log behind it.
    Log(Run),
}

// ---- the order's line

// A line of which nothing is read yet.
fn new_order() -> OrderLine
    ensures { result ≡ new_order }
{
    OrderLine {
        number: fields::begin(),
        count: 0,
        channels: [0; 16],
    }
}

// A line that no byte makes an order any more.
fn lose() -> OrderLine
    ensures { result ≡ lost }
{
    OrderLine {
        number: fields::begin(),
        count: 17,
        channels: [0; 16],
    }
}

// The number is put behind the others: at a comma, and at the line's end.
#[tactic(auto, unfolding(crate::specs::LogLines::put_away))]
fn put_away(c: OrderLine) -> OrderLine
    ensures { result ≡ put_away c }
{
    let read = c.number;
    let at = usize::from(c.count);
    if read.digit && read.commas == 0 && at < 16 {
        let mut channels = c.channels;
        channels[at] = read.last.min(255) as u8;
        return OrderLine {
            number: fields::begin(),
            count: c.count + 1,
            channels,
        };
    }
    lose()
}

// A byte of the line, other than its end.
#[tactic(auto, unfolding(crate::specs::LogLines::order_byte))]
fn next(c: OrderLine, b: u8) -> OrderLine
    ensures { result ≡ order_byte c b }
{
    if b == b',' {
        return put_away(c);
    }
    OrderLine {
        number: fields::read(c.number, b),
        ..c
    }
}

// How many channels of a line that has ended are looked at: of one that is lost none.
fn usable(count: u8) -> usize
    ensures { (result ≡ usable count) × (result ≤ 16) }
{
    if count <= 16 { usize::from(count) } else { 0 }
}

// The line has ended: the log begins with the order that it is, or with that of no channels, which is refused.
#[tactic(auto, unfolding(crate::specs::LogLines::order_in))]
fn begin_log(c: OrderLine) -> Run
    ensures { result ≡ begun (order_in c) }
{
    let o = put_away(c);
    arranging::begin(&o.channels[..usable(o.count)])
}

// ---- the input

// Before the first byte.
pub fn begin() -> Reading
    ensures { result ≡ new_reading }
{
    Reading::Order(new_order())
}

// The bytes of a read within the order's line: those of the line one by one, and all that stand behind it at once.
#[tactic(auto, using(crate::proofs::Input::at_end, crate::proofs::Input::at_byte, crate::proofs::Input::no_more))]
fn read_order(c: OrderLine, bytes: &[u8]) -> Reading
    ensures { result ≡ bytes_read (Order c) bytes.now }
{
    let mut order = c;
    for (i, &b) in bytes.iter().enumerate() {
        if b == b'\n' {
            return Reading::Log(arranging::take(begin_log(order), &bytes[i + 1..]));
        }
        order = next(order, b);
    }
    Reading::Order(order)
}

// The bytes of a read.
#[tactic(auto, using(crate::proofs::Input::all_heard))]
pub fn all(c: Reading, bytes: &[u8]) -> Reading
    ensures { result ≡ bytes_read c bytes.now }
{
    match c {
        Reading::Order(order) => read_order(order, bytes),
        Reading::Log(run) => Reading::Log(arranging::take(run, bytes)),
    }
}

// A number has fallen: whatever comes behind it, the answer is known.
#[tactic(auto, unfolding(crate::specs::LogLines::is_known))]
pub fn is_known(c: Reading) -> bool
    ensures { result ≡ is_known c }
{
    match c {
        Reading::Order(_) => false,
        Reading::Log(run) => run.song.number != 0,
    }
}

// The end of the input. An order's line without its 0AH is taken all the same, with a log of no lines.
#[tactic(auto, unfolding(crate::specs::LogLines::ended))]
pub fn end(c: Reading) -> Written
    ensures { result ≡ ended c }
{
    match c {
        Reading::Order(order) => arranging::end(begin_log(order)),
        Reading::Log(run) => arranging::end(run),
    }
}

// ---- the answer

// What standard output gets, at the page's start: the message, or nothing beside a number. Where the page has 38 bytes,
// it stands before the place that is answered, whole.
pub fn put_message(page: &mut [u8], w: Written) -> usize
    ensures put { Put page.old 0 (message_of w) result page.new }
    ensures page_after { 38 ≤ length page.old → take result page.new ≡ message_of w }
{
    if w.number != 0 {
        return 0;
    }
    let bytes = w.bytes;
    put(page, 0, &bytes)
}

// The answer's line, from this place of the page on: number, line and message. Where the page has 139 bytes from there
// on, it stands before the place that is answered, whole.
pub fn put_written(page: &mut [u8], at: usize, w: Written) -> usize
    ensures put { Put page.old at (written_line w) result page.new }
    ensures page_after { at + 139 ≤ length page.old
        → take result page.new ≡ take at page.old ++ written_line w }
{
    let a = put_number(page, at, w.number as u64);
    let b = put(page, a, b",");
    let c = put_number(page, b, w.line);
    let d = put(page, c, b",");
    let bytes = w.bytes;
    let e = text::put_bytes(page, d, &bytes);
    put(page, e, b"\n")
}
