// Changes of state: what keys, pedals and a change of kind do to notes (R5.2, R6.2, R6.7, R6.12, R6.16), by value, for
// every value, in one pass over the generators. Assumes nothing.
#![tactic(auto)]

ghost use Rattle.std.specs.Prelude.{◌≡◌, get_or, if◌then◌else◌};
ghost use Rattle.loops.specs.Passes.{up_to};
ghost use Rattle.generators.specs.Generators.{Generator, generator};
ghost use Rattle.releases.specs.Releases.{changes, key_up, state_after, changed};
ghost use Rattle.releases.specs.Selection.{is_one_of, selects};

use generators::Generators;
use std::array;

// What happens to the notes of a channel.
#[derive(Clone, Copy)]
pub enum Change {
    // A new note of this channel and key: the busy generators of the key are released.
    ReleaseNote(u8, u8),
    // The channel becomes one of another kind: its busy generators are released, pedal or not.
    ReleaseChannel(u8),
    // The key came up, with the pedal down or not: pedal, channel, key.
    NoteOff(bool, u8, u8),
    // All keys of the channel came up, with the pedal down or not: pedal, channel.
    AllNotesOff(bool, u8),
    // The pedal of this channel came up: what it sustained is released.
    PedalUp(u8),
}

// One key, or every key.
#[derive(Clone, Copy)]
enum Keys {
    One(u8),
    Every,
}

// The generators that a change means, by plain numbers, so that a pass asks them of many at once: held ones, sustained
// ones or both, of a channel and of its keys.
#[derive(Clone, Copy)]
struct Selection {
    held: bool,
    sustained: bool,
    channel: u8,
    keys: Keys,
}

fn select(change: Change) -> Selection
    ensures { (x : Generator) → selects result x ≡ changes change x }
{
    match change {
        Change::ReleaseNote(c, k) => Selection {
            held: true,
            sustained: true,
            channel: c,
            keys: Keys::One(k),
        },
        Change::ReleaseChannel(c) => Selection {
            held: true,
            sustained: true,
            channel: c,
            keys: Keys::Every,
        },
        Change::NoteOff(_, c, k) => Selection {
            held: true,
            sustained: false,
            channel: c,
            keys: Keys::One(k),
        },
        Change::AllNotesOff(_, c) => Selection {
            held: true,
            sustained: false,
            channel: c,
            keys: Keys::Every,
        },
        Change::PedalUp(c) => Selection {
            held: false,
            sustained: true,
            channel: c,
            keys: Keys::Every,
        },
    }
}

fn key_up(pedal: bool) -> u8
    ensures { result ≡ key_up pedal }
{
    if pedal {
        generators::SUSTAINED
    } else {
        generators::RELEASING
    }
}

// The state that they go to; never IDLE, since a generator that falls silent leaves the order of age too.
fn state_after(change: Change) -> u8
    ensures { result ≡ state_after change }
{
    match change {
        Change::ReleaseNote(_, _) => generators::RELEASING,
        Change::ReleaseChannel(_) => generators::RELEASING,
        Change::NoteOff(pedal, _, _) => key_up(pedal),
        Change::AllNotesOff(pedal, _) => key_up(pedal),
        Change::PedalUp(_) => generators::RELEASING,
    }
}

fn is_one_of(keys: Keys, key: u8) -> bool
    ensures { result ≡ is_one_of keys key }
{
    match keys {
        Keys::One(k) => key == k,
        Keys::Every => true,
    }
}

fn selects(w: Selection, state: u8, channel: u8, key: u8) -> bool
    ensures { result ≡ selects w (generator state channel key) }
{
    let is_state = (w.held & (state == generators::HELD))
        | (w.sustained & (state == generators::SUSTAINED));
    (is_state & (channel == w.channel)) & is_one_of(w.keys, key)
}

// The state of a generator afterwards: another, if it is selected.
fn moved(w: Selection, to: u8, state: u8, channel: u8, key: u8) -> u8
    ensures { result ≡ (if selects w (generator state channel key) then to else state) }
{
    if selects(w, state, channel, key) {
        to
    } else {
        state
    }
}

// The states after the selected generators went to another.
fn states_after(
    state: [u8; 64],
    channel: [u8; 64],
    keys: [u8; 64],
    w: Selection,
    to: u8,
) -> [u8; 64]
    ensures { result ≡ up_to (λ g. if selects w (generator (get_or state g 0) (get_or channel g 0) (get_or keys g 0))
        then to else get_or state g 0) 64 }
{
    array::from_fn(|i| moved(w, to, state[i], channel[i], keys[i]))
}

// The generators after a change.
pub fn apply(generators: Generators, change: Change) -> Generators
    ensures { result ≡ changed change generators }
{
    let state = states_after(
        generators.state,
        generators.channel,
        generators.key,
        select(change),
        state_after(change),
    );
    Generators {
        state,
        ..generators
    }
}
