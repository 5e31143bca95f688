// The driver's side (R1.11): the record is lent, and is up to date when the call returns. A MIDI byte, as the
// call by value takes it, for every value of the record. Most bytes complete nothing and touch the parser alone, so
// the rest of the record is not copied for them. The other event, a report, is in crate `driver_reports`. Assumes
// nothing.
#![tactic(auto)]

ghost use Rattle.std.specs.Prelude.{◌≡◌};
ghost use Rattle.events.specs.Events.{taken};
ghost use Rattle.events.specs.declared.Event.TheVariants.{Byte};
ghost use Rattle.driver.specs.Heard.{note_heard, acted, heard_by};

use device::Device;
use playing::Answer;
use splitter::{Completed, Parser};
use touched::Key;

// A note-on with a velocity above 0 touches the generators alone: the rest of the record stays where it is.
#[tactic(auto, unfolding(playing::specs::Playing::play_note_on))]
fn note(d: &mut Device, channel: u8, key: u8) -> Answer
    ensures { (result ≡ (note_heard d.old channel key).answer)
        × (d.new ≡ (note_heard d.old channel key).device) }
{
    let s = playing::sound(d.instrument, channel, key);
    d.instrument.generators = s.generators;
    s.answer
}

// What else a byte completed, where it found parser p: the parser in the record is already the next one.
fn act(d: &mut Device, p: Parser, c: Completed) -> Answer
    ensures { (result ≡ (acted d.old p c).answer) × (d.new ≡ (acted d.old p c).device) }
{
    let r = device::take(d.instrument, p, c);
    d.instrument = r.instrument;
    r.answer
}

// A byte b that completed c, which is not quiet.
fn hear(d: &mut Device, b: u8, c: Completed) -> Answer
    ensures { (result ≡ (heard_by d.old b c).answer)
        × (d.new ≡ (heard_by d.old b c).device) }
{
    let p = d.parser;
    d.parser = p.after(b);
    match touched::key_of(c) {
        Some(Key { channel, key }) => note(d, channel, key),
        None => act(d, p, c),
    }
}

// A MIDI byte. Most complete nothing and touch the parser alone.
#[tactic(auto, unfolding(events::specs::Events::taken, device::specs::Device::byte_taken))]
pub fn byte(d: &mut Device, b: u8) -> Answer
    ensures { (result ≡ (taken d.old (Byte b)).answer)
        × (d.new ≡ (taken d.old (Byte b)).device) }
{
    let c = d.parser.completes(b);
    if touched::is_quiet(c) {
        d.parser = d.parser.after(b);
        return touched::quiet_answer(c);
    }
    hear(d, b, c)
}
