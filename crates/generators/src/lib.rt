// The generators: what each is, and how one is assigned (R1.3 to R1.5, R5.11), by value, for every value.
// Assumes nothing.
#![tactic(auto)]

ghost use Rattle.std.specs.Prelude.{◌≡◌};
ghost use Rattle.generators.specs.Generators.{generator, is_busy, assigned, silent};

use ages::Ages;

pub const IDLE: u8 = 0;

// The key is down.
pub const HELD: u8 = 1;

// The key is up and the pedal down.
pub const SUSTAINED: u8 = 2;

pub const RELEASING: u8 = 3;

// Whether a state is busy: the key is down, or the pedal holds the note.
pub fn is_busy(state: u8) -> bool
    ensures { result ≡ is_busy (generator state 0 0) }
{
    (state == HELD) | (state == SUSTAINED)
}

// The generators, field by field, by their number: a state above, a channel 1 to 16 and a key 0 to 127 (both 0 while
// idle); and the sounding ones by age. A state above 3, which no operation makes, counts as sounding and as nothing
// more.
#[repr(C)]
#[derive(Clone, Copy)]
pub struct Generators {
    pub state: [u8; 64],
    pub channel: [u8; 64],
    pub key: [u8; 64],
    pub ages: Ages,
}

impl Generators {
    // All idle: the generators of a fresh record.
    pub fn silent() -> Self
        ensures { result ≡ silent }
    {
        Generators {
            state: [IDLE; 64],
            channel: [0; 64],
            key: [0; 64],
            ages: Ages {
                count: 0,
                generator: [0; 64],
            },
        }
    }

    // Generator g holds the note, and is the newest.
    #[tactic(auto, unfolding(crate::specs::Generators::assigned))]
    pub fn assign(self, g: u8, channel: u8, key: u8) -> Self
        ensures { result ≡ assigned g channel key self }
    {
        if 64 <= g {
            return self;
        }
        let at = usize::from(g);
        let mut next = self;
        next.state[at] = HELD;
        next.channel[at] = channel;
        next.key[at] = key;
        next.ages = self.ages.newest(g);
        next
    }
}
