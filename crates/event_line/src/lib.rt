// A line of a song's log (R14.1): which event it says, for every text. Assumes nothing.
#![tactic(auto)]

ghost use Rattle.std.specs.Prelude.{◌≡◌, ◌≤◌, length};
ghost use Rattle.event_line.specs.Log.{blank, put, text_of, event_of, meaning_of};
ghost use Rattle.event_line.specs.Parse.{are_digits, number, event_by};

use events::Event;

// The bytes of a line so far, its 0AH included. The first seven are kept and counted: no line of an event is longer
// than six. C lends the count and the bytes.
#[repr(C)]
#[derive(Clone, Copy)]
pub struct Line {
    pub count: u8,
    pub bytes: [u8; 7],
}

impl Line {
    // No byte yet.
    pub fn new() -> Self
        ensures { result ≡ blank }
    {
        Line {
            count: 0,
            bytes: [0; 7],
        }
    }

    // One byte more.
    pub fn push(self, b: u8) -> Self
        ensures { result ≡ put self b }
    {
        let Line { count, mut bytes } = self;
        if 7 <= count {
            return self;
        }
        bytes[usize::from(count)] = b;
        Line {
            count: count + 1,
            bytes,
        }
    }
}

// A number below 1000 in digits, with no zero before it.
fn are_digits(digits: &[u8]) -> bool
    ensures { result ≡ are_digits digits.now }
{
    match digits.first() {
        Some(b'0') => digits.len() == 1,
        Some(_) => digits.len() <= 3 && digits.iter().all(|d| d.is_ascii_digit()),
        None => false,
    }
}

// The number of some digits.
fn number(digits: &[u8]) -> u16
    requires { length digits.now ≤ 3 }
    ensures { result ≡ number digits.now }
{
    let mut n: u16 = 0;
    for d in digits {
        n = 10 * n + u16::from(d.saturating_sub(b'0'));
    }
    n
}

// `b` and a byte, or `e` and a generator.
fn event_by(letter: u8, v: u16) -> Option<Event>
    ensures { result ≡ meaning_of (event_by letter v) }
{
    match letter {
        b'b' if v < 256 => Some(Event::Byte(v as u8)),
        b'e' if v < 64 => Some(Event::Report(v as u8)),
        _ => None,
    }
}

// What a line says; nothing where it is of another form.
pub fn read(l: Line) -> Option<Event>
    ensures { result ≡ meaning_of (event_of (text_of l)) }
{
    match l.bytes.get(..usize::from(l.count))? {
        [letter, b',', digits @ .., b'\n'] if are_digits(digits) => {
            event_by(*letter, number(digits))
        }
        _ => None,
    }
}
