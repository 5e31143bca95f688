// What a note-off, a controller and a program change do to the sound module (R6.2, R6.4, R6.7 to R6.16), by value, for
// every value. No mask is looked at here. Assumes nothing.
#![tactic(auto)]

ghost use Rattle.std.specs.Prelude.{◌≡◌};
ghost use Rattle.other_messages.specs.OtherMessages.{notes_after, play_note_off, play_control};
ghost use Rattle.other_messages.specs.OtherMessages.{kind_set, play_program};

use generators::Generators;
use instrument::Instrument;
use releases::Change;
use silence::Leaving;

// What a controller does to notes; which ones do anything is in crate controllers.
#[tactic(auto, unfolding(crate::specs::OtherMessages::notes_after))]
fn notes_after(s: Generators, pedal: bool, channel: u8, n: u8, v: u8) -> Generators
    ensures { result ≡ notes_after pedal channel n v s }
{
    if controllers::lifts_pedal(n, v) {
        return releases::apply(s, Change::PedalUp(channel));
    }
    if controllers::silences_all(n, v) {
        return silence::fall_silent(s, Leaving::Channel(channel));
    }
    if controllers::ends_all(n, v) {
        return releases::apply(s, Change::AllNotesOff(pedal, channel));
    }
    s
}

// The channel's numbers, and its notes by the pedal as it was.
#[tactic(auto, unfolding(crate::specs::OtherMessages::play_control))]
pub fn control(i: Instrument, channel: u8, n: u8, v: u8) -> Instrument
    ensures { result ≡ play_control i channel n v }
{
    let pedal = i.pedal_down(channel) && !i.is_rhythm(channel);
    let after = notes_after(i.generators, pedal, channel, n, v);
    let x = controllers::control(i.channel_of(channel), n, v);
    i.with_channel(channel, x).with_generators(after)
}

// A drum ends by its report and not by its note-off.
#[tactic(auto, unfolding(crate::specs::OtherMessages::play_note_off))]
pub fn note_off(i: Instrument, channel: u8, key: u8) -> Instrument
    ensures { result ≡ play_note_off i channel key }
{
    if i.is_rhythm(channel) {
        return i;
    }
    let change = Change::NoteOff(i.pedal_down(channel), channel, key);
    let after = releases::apply(i.generators, change);
    i.with_generators(after)
}

// Channel 11 becomes a rhythm channel or one of melody. Where it is of another kind then, what it plays is released.
#[tactic(auto, unfolding(crate::specs::OtherMessages::kind_set))]
fn set_kind(i: Instrument, rhythm: bool) -> Instrument
    ensures { result ≡ kind_set i rhythm }
{
    if rhythm != i.is_rhythm(11) {
        let after = releases::apply(i.generators, Change::ReleaseChannel(11));
        return i.with_kind(rhythm).with_generators(after);
    }
    i
}

// The program is stored, and channel 11 takes its kind from the bank that was chosen before.
#[tactic(auto, unfolding(crate::specs::OtherMessages::play_program))]
pub fn program(i: Instrument, channel: u8, program: u8) -> Instrument
    ensures { result ≡ play_program i channel program }
{
    let x = i.channel_of(channel);
    let next = i.with_channel(channel, x.program(program));
    if channel == 11 {
        return set_kind(next, x.rhythm_by(i.is_rhythm(11)));
    }
    next
}
