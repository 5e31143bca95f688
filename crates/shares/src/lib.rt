// Masks and shares: which channels of a table may play among P generators, and how many notes each is sure of (R2.2
// to R2.5). By value, for every table value and every P. Assumes nothing.
#![tactic(auto)]

ghost use Rattle.std.specs.Prelude.{◌≡◌};
ghost use Rattle.shares.specs.Shares.{share_of, is_masked, is_channel};

use table::Table;

// The share of a channel among P generators; none for a masked channel: one that is unlisted, or whose value is above P,
// and may not play.
pub fn share_of(table: Table, polyphony: u8, channel: u8) -> Option<u8>
    ensures { result ≡ share_of table polyphony channel }
{
    let n = usize::from(table.count.min(16));
    let mut before = 0;
    for e in &table.entries[..n] {
        if e.value <= polyphony && channel == e.channel {
            return Some(e.value.saturating_sub(before));
        }
        before = e.value;
    }
    None
}

pub fn masks(table: Table, polyphony: u8, channel: u8) -> bool
    ensures { result ≡ is_masked (share_of table polyphony channel) }
{
    share_of(table, polyphony, channel).is_none()
}

// Whether a number is a channel's.
pub fn is_channel(channel: u8) -> bool
    ensures { result ≡ is_channel channel }
{
    (1..=16).contains(&channel)
}
