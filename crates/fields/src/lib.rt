// A line of decimal numbers with a comma between each two, read byte by byte: up to three numbers, each of any length.
// What a line's numbers ask for is in crates `pitch_lines` and `song_lines`. Assumes nothing.
#![tactic(auto)]

ghost use Rattle.std.specs.Prelude.{◌≡◌};
ghost use Rattle.fields.specs.Line.{new_line, read};

// A line as far as it is read. Its numbers move up at a comma: the one that is read is always the last.
#[derive(Clone, Copy)]
pub struct Line {
    // How many commas are read; from 3 on the line is malformed.
    pub commas: u8,
    // The last number has a digit.
    pub digit: bool,
    // Of three numbers the first.
    pub first: u32,
    // The one before the last.
    pub previous: u32,
    pub last: u32,
}

// Before the first byte of a line.
pub fn begin() -> Line
    ensures { result ≡ new_line }
{
    Line {
        commas: 0,
        digit: false,
        first: 0,
        previous: 0,
        last: 0,
    }
}

// A byte of a line: a digit, or a comma behind the first or the second number; any other makes the line malformed.
pub fn read(c: Line, b: u8) -> Line
    ensures { result ≡ read c b }
{
    if b.is_ascii_digit() {
        let last = 10 * u64::from(c.last) + u64::from(b - b'0');
        return Line {
            digit: true,
            last: last.min(99999999) as u32,
            ..c
        };
    }
    if (b == b',') & (c.digit & (c.commas < 2)) {
        return Line {
            commas: c.commas + 1,
            digit: false,
            first: c.previous,
            previous: c.last,
            last: 0,
        };
    }
    Line {
        commas: 3,
        digit: false,
        first: 0,
        previous: 0,
        last: 0,
    }
}
