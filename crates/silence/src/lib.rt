// Generators that fall silent (R5.3, R6.10, R7.1), by value, for every value, in a few passes however many they are.
// Assumes nothing.
#![tactic(auto)]

ghost use Rattle.std.specs.Prelude.{◌≡◌, ◌<◌, eqb, get_or, if◌then◌else◌};
ghost use Rattle.loops.specs.Passes.{up_to, marks_of};
ghost use Rattle.generators.specs.Generators.{generator};
ghost use Rattle.silence.specs.Silence.{leaves, silenced};

use generators::Generators;
use std::array;

// The sounding generators that become idle.
#[derive(Clone, Copy)]
pub enum Leaving {
    // One, by its number: the tone generator reported its end.
    One(u8),
    // All of a channel: controller 120.
    Channel(u8),
    // Those of a channel with another key of this key's exclusive group: a new drum note.
    Group(u8, u8),
}

#[tactic(auto, unfolding(crate::specs::Silence::leaves, crate::specs::Silence::is_among))]
fn leaves(leaving: Leaving, g: u8, state: u8, channel: u8, key: u8) -> bool
    ensures { result ≡ leaves leaving g (generator state channel key) }
{
    if state == generators::IDLE {
        return false;
    }
    match leaving {
        Leaving::One(h) => g == h,
        Leaving::Channel(c) => channel == c,
        Leaving::Group(c, k) => (channel == c) & drums::excluded(k, key),
    }
}

// A mark for each generator that becomes idle.
fn marks(state: [u8; 64], channel: [u8; 64], keys: [u8; 64], leaving: Leaving) -> [u8; 256]
    ensures { result ≡ marks_of (λ g. leaves leaving g
        (generator (get_or state g 0) (get_or channel g 0) (get_or keys g 0))) }
{
    let mut out = [0u8; 256];
    for i in 0..64 {
        out[i] = u8::from(leaves(leaving, i as u8, state[i], channel[i], keys[i]));
    }
    out
}

// The numbers of the generators without a mark, and 0 for the others.
fn unmarked(numbers: [u8; 64], marks: [u8; 256]) -> [u8; 64]
    ensures { result ≡ up_to (λ g. if eqb (get_or marks g 0) 0 then get_or numbers g 0 else 0) 64 }
{
    array::from_fn(
        |i|
            requires { i < 64 }
            ensures { result ≡ (if eqb (get_or marks i 0) 0 then get_or numbers i 0 else 0) }
        { if marks[i] == 0 { numbers[i] } else { 0 } },
    )
}

// Generators that become idle also leave the order of age.
pub fn fall_silent(generators: Generators, leaving: Leaving) -> Generators
    ensures { result ≡ silenced leaving generators }
{
    let gone = marks(
        generators.state,
        generators.channel,
        generators.key,
        leaving,
    );
    Generators {
        state: unmarked(generators.state, gone),
        channel: unmarked(generators.channel, gone),
        key: unmarked(generators.key, gone),
        ages: generators.ages.without(gone),
    }
}
