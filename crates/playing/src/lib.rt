// What a complete channel message does to the sound module, and what it answers (R4.11, R4.12), by value, for every
// value. Assumes nothing.
#![tactic(auto)]

ghost use Rattle.std.specs.Prelude.{◌≡◌};
ghost use Rattle.playing.specs.Playing.{sounded_of, play_note_on, reply_of, replied, played};

use allocation::{Taken, Was};
use generators::Generators;
use instrument::Instrument;
use message::Message;
use refusals::Refusal;

// The answer to a byte or a report.
#[derive(Clone, Copy, PartialEq, Eq)]
pub enum Answer {
    // None: the byte completed nothing that counts.
    Nothing,
    // A complete channel message other than a sounding note, an accepted MIP message or reset, an accepted report.
    Done,
    // A note: its channel, its key, its generator, and what that was.
    Note(u8, u8, u8, Was),
    // A note-on without a generator: why, its channel and its key.
    NoNote(Refusal, u8, u8),
    // Anything else that is refused.
    Number(Refusal),
}

// An answer, and the record without its parser after it.
#[derive(Clone, Copy)]
pub struct Reply {
    pub answer: Answer,
    pub instrument: Instrument,
}

// The answer to a note-on, and the generators after it.
#[derive(Clone, Copy)]
pub struct Sounded {
    pub answer: Answer,
    pub generators: Generators,
}

impl Reply {
    pub fn new(answer: Answer, instrument: Instrument) -> Self
        ensures { result ≡ replied answer instrument }
    {
        Reply { answer, instrument }
    }
}

fn note_answer(taken: Result<Taken, Refusal>, channel: u8, key: u8) -> Answer
    ensures { result ≡ reply_of taken channel key }
{
    match taken {
        Ok(Taken { generator, was }) => Answer::Note(channel, key, generator, was),
        Err(refusal) => Answer::NoNote(refusal, channel, key),
    }
}

// A note-on with a velocity above 0. It changes the generators alone, so that a caller can leave the rest of the record
// where it is.
#[tactic(auto, unfolding(crate::specs::Playing::play_note_on))]
pub fn sound(i: Instrument, channel: u8, key: u8) -> Sounded
    ensures { result ≡ sounded_of (play_note_on i channel key) }
{
    let rhythm = i.is_rhythm(channel);
    let a = allocation::note_on(i.generators, i.table, i.polyphony, rhythm, channel, key);
    Sounded {
        answer: note_answer(a.taken, channel, key),
        generators: a.generators,
    }
}

#[tactic(auto, unfolding(crate::specs::Playing::play_note_on))]
fn note_on(i: Instrument, channel: u8, key: u8) -> Reply
    ensures { result ≡ play_note_on i channel key }
{
    let s = sound(i, channel, key);
    Reply::new(s.answer, i.with_generators(s.generators))
}

// A complete channel message.
#[tactic(auto, unfolding(crate::specs::Playing::played))]
pub fn play(i: Instrument, m: Message) -> Reply
    ensures { result ≡ played i m }
{
    match m {
        Message::NoteOn(c, k) => note_on(i, c, k),
        Message::NoteOff(c, k) => Reply::new(Answer::Done, other_messages::note_off(i, c, k)),
        Message::Control(c, n, v) => Reply::new(Answer::Done, other_messages::control(i, c, n, v)),
        Message::Program(c, n) => Reply::new(Answer::Done, other_messages::program(i, c, n)),
        Message::Bend(c, msb, lsb) => Reply::new(
            Answer::Done,
            i.with_channel(c, i.channel_of(c).bend(msb, lsb)),
        ),
        Message::Other => Reply::new(Answer::Done, i),
    }
}
