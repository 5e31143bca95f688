// What a new table does to notes: those of newly masked channels are released (R2.8, R2.9), by value, for every
// value.
// Assumes nothing.
#![tactic(auto)]

ghost use Rattle.std.specs.Prelude.{◌≡◌, ◌&&◌, not, ℕ, ◌<◌, false, get_or, if◌then◌else◌};
ghost use Rattle.loops.specs.Passes.{up_to};
ghost use Rattle.generators.specs.Generators.{generator, releasing, is_busy};
ghost use Rattle.shares.specs.Shares.{share_of, is_masked};
ghost use Rattle.masking.specs.Masking.{is_newly_masked, masked};

use generators::Generators;
use table::Table;

// Which channels a table leaves unmasked among P generators, in one pass over its entries.
fn unmasked(table: Table, polyphony: u8) -> [bool; 256]
    ensures { (c : ℕ) → c < 256 → get_or result c false ≡ not (is_masked (share_of table polyphony c)) }
{
    let n = usize::from(table.count.min(16));
    let mut out = [false; 256];
    for e in &table.entries[..n] {
        out[usize::from(e.channel)] |= e.value <= polyphony;
    }
    out
}

// Which channels are newly masked: those that play by the old table and not by the new one. What is above 16 is none.
fn newly_masked(polyphony: u8, old: Table, new: Table) -> [bool; 256]
    ensures { (c : ℕ) → get_or result c false ≡ is_newly_masked polyphony old new c }
{
    let before = unmasked(old, polyphony);
    let after = unmasked(new, polyphony);
    let mut out = [false; 256];
    for c in 1..17 {
        out[c] = before[c] & !after[c];
    }
    out
}

// The states after the busy generators of these channels were released.
fn release(state: [u8; 64], channel: [u8; 64], gone: [bool; 256]) -> [u8; 64]
    ensures { result ≡ up_to (λ g. if is_busy (generator (get_or state g 0) 0 0)
        && get_or gone (get_or channel g 0) false then releasing else get_or state g 0) 64 }
{
    let mut out = state;
    for g in 0..64 {
        let goes = generators::is_busy(state[g]) & gone[usize::from(channel[g])];
        out[g] = if goes {
            generators::RELEASING
        } else {
            state[g]
        };
    }
    out
}

// The generators after the new table replaced the old one.
pub fn mask(generators: Generators, polyphony: u8, old: Table, new: Table) -> Generators
    ensures { result ≡ masked polyphony old new generators }
{
    let gone = newly_masked(polyphony, old, new);
    Generators {
        state: release(generators.state, generators.channel, gone),
        ..generators
    }
}
