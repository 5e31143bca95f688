// Who loses a note (R5.7 to R5.10): the channel to steal from, and the generator that is stolen, for every value of
// the generators and of the table. Assumes nothing.
#![tactic(auto)]

ghost use Rattle.std.specs.Prelude.{◌≡◌, ◌-◌, ◌&&◌, leb, ltb};
ghost use Rattle.stealing.specs.Stealing.{counted, steal_from, victim};

use generators::Generators;
use table::{Entry, Table};

// Whether the channel of an entry, unmasked, is over its share with a new note of `channel`.
fn is_over(generators: Generators, entry: Entry, before: u8, polyphony: u8, channel: u8) -> bool
    ensures { result ≡ (leb entry.value polyphony
        && ltb (entry.value - before) (counted generators channel entry.channel)) }
{
    if polyphony < entry.value {
        return false;
    }
    let count = candidates::busy_count(generators, entry.channel)
        + u8::from(entry.channel == channel);
    entry.value.saturating_sub(before) < count
}

// The channel of lowest priority over its share: from the end of the table, so that mostly few channels are counted.
fn steal_from(generators: Generators, table: Table, polyphony: u8, channel: u8) -> Option<u8>
    ensures { result ≡ steal_from generators table polyphony channel }
{
    let entries = table.entries;
    for i in (0..usize::from(table.count.min(16))).rev() {
        // Read here, since a function of the table would copy it for each entry.
        let before = if i == 0 { 0 } else { entries[i - 1].value };
        if is_over(generators, entries[i], before, polyphony, channel) {
            return Some(entries[i].channel);
        }
    }
    None
}

// The generator that a new note of the channel steals where all are busy: of the channel to steal from the oldest
// sustained one, and the oldest held one where none is sustained.
#[tactic(auto, unfolding(crate::specs::Stealing::victim))]
pub fn victim(generators: Generators, table: Table, polyphony: u8, channel: u8) -> Option<u8>
    ensures { result ≡ victim generators table polyphony channel }
{
    let d = steal_from(generators, table, polyphony, channel)?;
    candidates::oldest(generators, candidates::stolen_first(generators, d))
}
