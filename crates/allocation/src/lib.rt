// Which generator a note gets (R5.1 to R5.11): steps 1 to 5 and the assignment, by value, for every value of the
// generators and of the table. Assumes nothing.
#![tactic(auto)]

ghost use Rattle.std.specs.Prelude.{◌≡◌};
ghost use Rattle.allocation.specs.Allocation.{cleared, choice, note_on};

use candidates::Want;
use generators::Generators;
use refusals::Refusal;
use releases::Change;
use silence::Leaving;
use table::Table;

// What the generator of a new note was.
#[derive(Clone, Copy, PartialEq, Eq)]
pub enum Was {
    // It was idle.
    Idle,
    // It was releasing, the oldest one.
    Release,
    // It was busy, and its note is stolen.
    Stolen,
}

// The generator that a note-on gets.
#[derive(Clone, Copy)]
pub struct Taken {
    pub generator: u8,
    pub was: Was,
}

#[derive(Clone, Copy)]
pub struct Allocated {
    // Masked or NothingToSteal where it gets none.
    pub taken: Result<Taken, Refusal>,
    pub generators: Generators,
}

// Steps 2 and 3: the key's earlier note is released and, on a rhythm channel, other drums of its group fall silent.
#[tactic(auto, unfolding(crate::specs::Allocation::cleared))]
fn clear(generators: Generators, rhythm: bool, channel: u8, key: u8) -> Generators
    ensures { result ≡ cleared rhythm channel key generators }
{
    let released = releases::apply(generators, Change::ReleaseNote(channel, key));
    if rhythm {
        return silence::fall_silent(released, Leaving::Group(channel, key));
    }
    released
}

// Steps 4 and 5: idle before releasing before stolen.
#[tactic(auto, unfolding(crate::specs::Allocation::choice))]
fn choose(
    generators: Generators,
    table: Table,
    polyphony: u8,
    channel: u8,
) -> Result<Taken, Refusal>
    ensures { result ≡ choice generators table polyphony channel }
{
    if let Some(generator) = candidates::lowest_idle(generators, polyphony) {
        return Ok(Taken {
            generator,
            was: Was::Idle,
        });
    }
    if let Some(generator) = candidates::oldest(generators, Want::Releasing) {
        return Ok(Taken {
            generator,
            was: Was::Release,
        });
    }
    let victim = stealing::victim(generators, table, polyphony, channel);
    let generator = victim.ok_or(Refusal::NothingToSteal)?;
    Ok(Taken {
        generator,
        was: Was::Stolen,
    })
}

// A note-on with a velocity above 0: the generators after it, and which one it took.
#[tactic(auto, unfolding(crate::specs::Allocation::note_on))]
pub fn note_on(
    generators: Generators,
    table: Table,
    polyphony: u8,
    rhythm: bool,
    channel: u8,
    key: u8,
) -> Allocated
    ensures { result ≡ note_on generators table polyphony rhythm channel key }
{
    if shares::masks(table, polyphony, channel) {
        return Allocated {
            taken: Err(Refusal::Masked),
            generators,
        };
    }
    let rest = clear(generators, rhythm, channel, key);
    let taken = choose(rest, table, polyphony, channel);
    let Ok(new) = taken else {
        return Allocated { taken, generators };
    };
    Allocated {
        taken,
        generators: rest.assign(new.generator, channel, key),
    }
}
