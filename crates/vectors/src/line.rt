// A line of a command, byte by byte: a letter, and numbers of two hexadecimal digits, each behind one blank. Assumes
// nothing.
ghost use Rattle.std.specs.Prelude.{◌≤◌};

// What the next byte of a line may be.
#[derive(Clone, Copy)]
pub(crate) enum Awaits {
    // The line's first byte: a command or the sign of a comment.
    Command,
    // The line's end or the blank before a number.
    Gap,
    // A number's first digit.
    Digit,
    // Its second one, behind this first one.
    SecondDigit(u8),
    // Anything: the line is a comment.
    Comment,
    // Anything: the line is malformed.
    Malformed,
}

// A line, as far as it is read.
#[derive(Clone, Copy)]
pub(crate) struct Line {
    pub(crate) awaits: Awaits,
    pub(crate) command: u8,
    count: usize,
    numbers: [u8; 64],
    ghost fits: { count ≤ 64 },
}

// The value of a hexadecimal digit.
fn digit_of(b: u8) -> Option<u8> {
    match b {
        b'0'..=b'9' => Some(b - b'0'),
        b'A'..=b'F' => Some(b - b'A' + 10),
        _ => None,
    }
}

impl Line {
    pub(crate) fn new() -> Line {
        Line {
            awaits: Awaits::Command,
            command: 0,
            count: 0,
            numbers: [0; 64],
        }
    }

    // The numbers behind the command.
    pub(crate) fn numbers(&self) -> &[u8] {
        &self.numbers[..self.count]
    }

    // A number more; a line with a 65th is malformed.
    fn add(&mut self, n: u8) -> Awaits {
        if self.count == 64 {
            return Awaits::Malformed;
        }
        self.numbers[self.count] = n;
        self.count += 1;
        Awaits::Gap
    }

    // A byte more, other than the line's end.
    pub(crate) fn read(&mut self, b: u8) {
        self.awaits = match self.awaits {
            Awaits::Command if b == b'#' => Awaits::Comment,
            Awaits::Command => {
                self.command = b;
                Awaits::Gap
            }
            Awaits::Gap if b == b' ' => Awaits::Digit,
            Awaits::Digit => match digit_of(b) {
                Some(high) => Awaits::SecondDigit(high),
                None => Awaits::Malformed,
            },
            Awaits::SecondDigit(high) => match digit_of(b) {
                Some(low) => self.add((high << 4) | low),
                None => Awaits::Malformed,
            },
            Awaits::Comment => Awaits::Comment,
            Awaits::Gap | Awaits::Malformed => Awaits::Malformed,
        };
    }
}

// A number in three, highest first.
pub(crate) fn in_three(high: u8, middle: u8, low: u8) -> usize {
    usize::from(high) * 65536 + usize::from(middle) * 256 + usize::from(low)
}
