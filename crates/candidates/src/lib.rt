// The generators that a note-on may take (R5.5 to R5.7, R5.9), by value, for every value, in one pass each.
// Assumes nothing.
#![tactic(auto)]

ghost use Rattle.std.specs.Prelude.{◌≡◌, not, ◌≤◌, eqb, get_or};
ghost use Rattle.loops.specs.Cases.{bit, given};
ghost use Rattle.loops.specs.Passes.{total, first_of, marks_of};
ghost use Rattle.ages.specs.Ages.{oldest_first};
ghost use Rattle.generators.specs.Generators.{generator};
ghost use Rattle.candidates.specs.Candidates.{lowest_idle, wanted, oldest, stolen_first, busy_count};

use ages::Ages;
use generators::Generators;

// The generators among which the oldest is looked for, or which are counted.
#[derive(Clone, Copy)]
pub enum Want {
    // Those that are releasing: the first to be taken where none is idle.
    Releasing,
    // The sustained ones of a channel: the first to be stolen.
    SustainedOn(u8),
    // The held ones of a channel: stolen where it has none sustained.
    HeldOn(u8),
    // The busy ones of a channel: they count.
    BusyOn(u8),
}

// Whether a generator with this state and channel is wanted.
fn is_wanted(want: Want, state: u8, channel: u8) -> bool
    ensures { result ≡ wanted want (generator state channel 0) }
{
    match want {
        Want::Releasing => state == generators::RELEASING,
        Want::SustainedOn(c) => (state == generators::SUSTAINED) & (channel == c),
        Want::HeldOn(c) => (state == generators::HELD) & (channel == c),
        Want::BusyOn(c) => generators::is_busy(state) & (channel == c),
    }
}

// A `for`, since the chain's count costs 3.7 times the instructions.
fn how_many(state: [u8; 64], channel: [u8; 64], want: Want) -> u8
    ensures { (result ≡ total (λ g. bit (wanted want (generator (get_or state g 0) (get_or channel g 0) 0))) 64)
        × (result ≤ 64) }
{
    let mut n: u8 = 0;
    for i in 0..64 {
        n += u8::from(is_wanted(want, state[i], channel[i]));
    }
    n
}

// A mark for each generator that is wanted.
fn marks(state: [u8; 64], channel: [u8; 64], want: Want) -> [u8; 256]
    ensures { result ≡ marks_of (λ g. wanted want (generator (get_or state g 0) (get_or channel g 0) 0)) }
{
    let mut out = [0u8; 256];
    for i in 0..64 {
        out[i] = u8::from(is_wanted(want, state[i], channel[i]));
    }
    out
}

// The oldest generator with a mark. A `for`, as below.
fn first_marked(order: Ages, marks: [u8; 256]) -> Option<u8>
    ensures { result ≡ given (first_of (λ g. not (eqb (get_or marks g 0) 0)) (oldest_first order)) }
{
    let n = usize::from(order.count.min(64));
    let numbers = order.generator;
    for g in &numbers[..n] {
        if marks[*g as usize] != 0 {
            return Some(*g);
        }
    }
    None
}

// Step 4 of a note-on: the idle generator of lowest number among the first P. A `for`, since a chain's `find` costs seven
// instructions a generator more.
pub fn lowest_idle(generators: Generators, polyphony: u8) -> Option<u8>
    ensures { result ≡ lowest_idle generators polyphony }
{
    let n = polyphony.min(64);
    for g in 0..n {
        if generators.state[g as usize] == generators::IDLE {
            return Some(g);
        }
    }
    None
}

// The oldest generator of those wanted. Mostly there is none: the order of age is gone through only where there is one.
pub fn oldest(generators: Generators, want: Want) -> Option<u8>
    ensures { result ≡ oldest want generators }
{
    let state = generators.state;
    let channel = generators.channel;
    if how_many(state, channel, want) == 0 {
        return None;
    }
    first_marked(generators.ages, marks(state, channel, want))
}

// Which of a channel's busy generators are stolen first: a key that is still down is heard to break off, and what only
// the pedal holds often is not.
pub fn stolen_first(generators: Generators, channel: u8) -> Want
    ensures { result ≡ stolen_first generators channel }
{
    let pedal = Want::SustainedOn(channel);
    if how_many(generators.state, generators.channel, pedal) == 0 {
        return Want::HeldOn(channel);
    }
    pedal
}

// How many generators are busy on a channel.
pub fn busy_count(generators: Generators, channel: u8) -> u8
    ensures { (result ≡ busy_count generators channel) × (result ≤ 64) }
{
    how_many(generators.state, generators.channel, Want::BusyOn(channel))
}
