// What a byte means: a stream of MIDI bytes split into messages (rules R4.1 to R4.14), by value, for every parser
// value and every byte.
// It knows neither the polyphony nor the own ID nor the table. Assumes nothing.
#![tactic(auto)]

ghost use Rattle.std.specs.Prelude.{◌≡◌};
ghost use Rattle.splitter.specs.Split.{begun, quiet, stored, one_data_byte};
ghost use Rattle.splitter.specs.Split.{at_last, completed, data_byte, ended, split};

// Between two bytes: the status byte in force, 0 for none (F0 while a SysEx is open, F1 to F3 while data bytes are
// swallowed), the number of data bytes since, and these bytes. Of a SysEx the first 37 are kept and counted: a longer
// one is as wrong at 37 as at any length. C reads the count and the bytes.
#[repr(C)]
#[derive(Clone, Copy)]
pub struct Parser {
    pub status: u8,
    pub count: u8,
    pub bytes: [u8; 37],
}

// What a byte completed.
#[derive(Clone, Copy, PartialEq, Eq)]
pub enum Completed {
    // Nothing yet, or nothing that counts: a status, a first data byte, a byte of a SysEx, a swallowed or a real_time
    // byte.
    Nothing,
    // Number 3: a data byte without a status, a SysEx or something to swallow it.
    Stray,
    // Number 4: a status below F7 cut a SysEx; the status is taken as usual.
    Cut,
    // A channel message: its status byte and two data bytes, the second 0 where the kind has one.
    Message(u8, u8, u8),
    // F7 ended a SysEx, whose data bytes are those of the parser before this byte.
    SysEx,
}

#[derive(Clone, Copy)]
pub struct Split {
    pub parser: Parser,
    pub completed: Completed,
}

impl Parser {
    // A status byte in force, with no data byte yet.
    #[tactic(auto, unfolding(crate::specs::Split::begun))]
    fn begin(status: u8) -> Self
        ensures { result ≡ begun status }
    {
        Parser {
            status,
            count: 0,
            bytes: [0; 37],
        }
    }

    // The parser of a fresh record: no status.
    pub fn new() -> Self
        ensures { result ≡ quiet }
    {
        Parser::begin(0)
    }

    #[tactic(auto, unfolding(crate::specs::Split::stored))]
    fn store(self, b: u8) -> Self
        ensures { result ≡ stored self b }
    {
        let n = self.count;
        if 37 <= n {
            return self;
        }
        let mut bytes = self.bytes;
        bytes[usize::from(n)] = b;
        Parser {
            status: self.status,
            count: n + 1,
            bytes,
        }
    }

    // Whether the next data byte is the last that the status in force takes; a SysEx takes any number of them.
    fn at_last(self) -> bool
        ensures { result ≡ at_last self }
    {
        (self.status != 0xF0) & (one_data_byte(self.status) | (self.count != 0))
    }

    // What the last data byte completes: nothing where F1 to F3 swallow it.
    #[tactic(auto, unfolding(crate::specs::Split::completed))]
    fn message(self, b: u8) -> Completed
        ensures { result ≡ (completed self b).completed }
    {
        if 0xF0 <= self.status {
            return Completed::Nothing;
        }
        if one_data_byte(self.status) {
            return Completed::Message(self.status, b, 0);
        }
        Completed::Message(self.status, self.bytes[0], b)
    }

    #[tactic(auto, unfolding(crate::specs::Split::data_byte))]
    fn data_completes(self, b: u8) -> Completed
        ensures { result ≡ (data_byte self b).completed }
    {
        if self.status < 0x80 {
            return Completed::Stray;
        }
        if self.at_last() {
            return self.message(b);
        }
        Completed::Nothing
    }

    // What a byte completes.
    #[tactic(auto, unfolding(crate::specs::Split::split, crate::specs::Split::status_byte))]
    pub fn completes(self, b: u8) -> Completed
        ensures { result ≡ (split self b).completed }
    {
        if b < 0x80 {
            return self.data_completes(b);
        }
        if b < 0xF8 {
            return ended(self.status, b);
        }
        Completed::Nothing
    }

    // The byte that completes a message keeps the running status; after F1 to F3 there is none.
    #[tactic(auto, unfolding(crate::specs::Split::data_byte, crate::specs::Split::completed))]
    fn after_data(self, b: u8) -> Self
        ensures { result ≡ (data_byte self b).parser }
    {
        if self.status < 0x80 {
            return self;
        }
        if self.at_last() {
            return Parser::begin(if 0xF0 <= self.status { 0 } else { self.status });
        }
        self.store(b)
    }

    // The parser after a byte.
    #[tactic(auto, unfolding(crate::specs::Split::split, crate::specs::Split::status_byte, crate::specs::Split::opened))]
    pub fn after(self, b: u8) -> Self
        ensures { result ≡ (split self b).parser }
    {
        if b < 0x80 {
            return self.after_data(b);
        }
        // Real-time bytes leave everything as it is, running status too.
        if 0xF8 <= b {
            return self;
        }
        Parser::begin(if b < 0xF4 { b } else { 0 })
    }

    // One byte: the parser after it, and what it completed. Two functions, so that who wants one of them does not pay
    // for both.
    pub fn split(self, b: u8) -> Split
        ensures { result ≡ split self b }
    {
        Split {
            parser: self.after(b),
            completed: self.completes(b),
        }
    }
}

#[tactic(auto, unfolding(crate::specs::Split::one_data_byte))]
fn one_data_byte(s: u8) -> bool
    ensures { result ≡ one_data_byte s }
{
    // `matches!` has branches, and makes a data byte ten instructions dearer.
    ((0xC0 <= s) & (s < 0xE0)) | ((s == 0xF1) | (s == 0xF3))
}

// What status byte b completes where s was in force.
#[tactic(auto, unfolding(crate::specs::Split::ended))]
fn ended(s: u8, b: u8) -> Completed
    ensures { result ≡ ended s b }
{
    if s != 0xF0 {
        return Completed::Nothing;
    }
    if b == 0xF7 {
        return Completed::SysEx;
    }
    Completed::Cut
}
