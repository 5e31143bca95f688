// Why a call is refused (section 8 of docs/RULES.md), and the number by which that is told outside. Assumes nothing.
#![tactic(auto)]

ghost use Rattle.std.specs.Prelude.{◌≡◌};
ghost use Rattle.refusals.specs.Refusals.{number};

// A reason, in the order of the numbers.
#[derive(Clone, Copy, PartialEq, Eq)]
pub enum Refusal {
    // A start or the hardest song: P is not 1 to 64.
    WrongPolyphony,
    // A start: the own ID is above 126.
    WrongId,
    // A data byte that belongs to nothing.
    Stray,
    // A status below F7 cut a SysEx.
    Cut,
    // A MIP message: more than 32 bytes of pairs.
    MipTooLong,
    // A MIP message: no byte of pairs, or an odd number.
    MipOddLength,
    // A MIP message: a pair's first byte is above 15.
    MipNoChannel,
    // A MIP message: a channel is listed twice.
    MipListedTwice,
    // A MIP message: a value is below the one before.
    MipFallingValue,
    // A note-on: the channel is masked.
    Masked,
    // A note-on: all generators are busy, and none is to be stolen.
    NothingToSteal,
    // A report or a query: the generator is P or above.
    NoGenerator,
    // A report: the generator is idle.
    IdleGenerator,
    // A query: the channel is not 1 to 16.
    NoChannel,
    // A log: a line of another form.
    WrongLine,
    // A log: no order of the channels.
    WrongOrder,
    // A log: a line at which a MIP message ends or a note is lost.
    UnfitLog,
    // The service page: the buffer has fewer than 323 bytes.
    ShortPage,
    // A pitch: a key, a sensitivity or a bend is too large.
    PitchOutOfRange,
    // Gains: an expression, a volume or a pan is above 127.
    GainsOutOfRange,
    // The hardest song: it is too long, or longer than the buffer.
    SongTooLong,
    // None of these: no call here is refused so. An answer that is put into words or numbers may hold any number.
    Other(u8),
}

impl Refusal {
    // The number of a reason.
    pub fn number(self) -> u8
        ensures { result ≡ number self }
    {
        match self {
            Refusal::WrongPolyphony => 1,
            Refusal::WrongId => 2,
            Refusal::Stray => 3,
            Refusal::Cut => 4,
            Refusal::MipTooLong => 5,
            Refusal::MipOddLength => 6,
            Refusal::MipNoChannel => 7,
            Refusal::MipListedTwice => 8,
            Refusal::MipFallingValue => 9,
            Refusal::Masked => 10,
            Refusal::NothingToSteal => 11,
            Refusal::NoGenerator => 12,
            Refusal::IdleGenerator => 13,
            Refusal::NoChannel => 14,
            Refusal::WrongLine => 15,
            Refusal::WrongOrder => 16,
            Refusal::UnfitLog => 17,
            Refusal::ShortPage => 18,
            Refusal::PitchOutOfRange => 21,
            Refusal::GainsOutOfRange => 24,
            Refusal::SongTooLong => 25,
            Refusal::Other(n) => n,
        }
    }
}
