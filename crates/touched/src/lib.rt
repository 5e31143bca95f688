// What a byte touches of the record, by what it completed: the parser alone, the generators too, or all of it. By
// value, for the calls over the lent record (`driver`). Assumes nothing.
#![tactic(auto)]

ghost use Rattle.std.specs.Prelude.{◌≡◌};
ghost use Rattle.touched.specs.Touched.{is_quiet, quiet_answer, key_in, key_of};

use message::Message;
use playing::Answer;
use refusals::Refusal;
use splitter::Completed;

// Whether the byte concerns the parser alone. Apart from its answer, since an Option of that makes every byte ten
// instructions and more dearer.
pub fn is_quiet(c: Completed) -> bool
    ensures { result ≡ is_quiet c }
{
    matches!(c, Completed::Nothing | Completed::Stray | Completed::Cut)
}

// The answer to such a byte.
pub fn quiet_answer(c: Completed) -> Answer
    ensures { result ≡ quiet_answer c }
{
    match c {
        Completed::Stray => Answer::Number(Refusal::Stray),
        Completed::Cut => Answer::Number(Refusal::Cut),
        _ => Answer::Nothing,
    }
}

// What sounds: a channel and a key.
#[derive(Clone, Copy)]
pub struct Key {
    pub channel: u8,
    pub key: u8,
}

// The key of a note-on with a velocity above 0.
pub fn key_of(c: Completed) -> Option<Key>
    ensures { result ≡ key_of c }
{
    match c {
        Completed::Message(s, a, b) => key_in(message::read(s, a, b)),
        _ => None,
    }
}

fn key_in(m: Message) -> Option<Key>
    ensures { result ≡ key_in m }
{
    match m {
        Message::NoteOn(channel, key) => Some(Key { channel, key }),
        _ => None,
    }
}
