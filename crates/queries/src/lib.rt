// The queries of the device (R7.3 to R7.7): they change nothing. By value, for every value of the record. Assumes
// nothing.
#![tactic(auto)]

ghost use Rattle.std.specs.Prelude.{◌≡◌};
ghost use Rattle.queries.specs.Queries.{generator_query, mask_query, share_query, rhythm_query};

use device::Device;
use generators::Generators;
use refusals::Refusal;

// What a query of a generator tells of it.
#[derive(Clone, Copy, PartialEq, Eq)]
pub struct GeneratorState {
    pub state: u8,
    pub channel: u8,
    pub key: u8,
}

// The state, channel and key of generator g.
#[tactic(auto, unfolding(crate::specs::Queries::generator_query))]
pub fn generator_query(d: Device, g: u8) -> Result<GeneratorState, Refusal>
    ensures { result ≡ generator_query d g }
{
    if d.instrument.polyphony <= g {
        return Err(Refusal::NoGenerator);
    }
    // Each array by itself: the order of age is not copied for it.
    let Generators {
        state,
        channel,
        key,
        ..
    } = d.instrument.generators;
    let at = usize::from(g);
    Ok(GeneratorState {
        state: state.get(at).copied().unwrap_or(0),
        channel: channel.get(at).copied().unwrap_or(0),
        key: key.get(at).copied().unwrap_or(0),
    })
}

// Whether a channel is masked.
#[tactic(auto, unfolding(crate::specs::Queries::mask_query))]
pub fn mask_query(d: Device, channel: u8) -> Result<bool, Refusal>
    ensures { result ≡ mask_query d channel }
{
    if !shares::is_channel(channel) {
        return Err(Refusal::NoChannel);
    }
    Ok(shares::masks(d.instrument.table, d.instrument.polyphony, channel))
}

// The share of a channel, 0 if it is masked.
#[tactic(auto, unfolding(crate::specs::Queries::share_query))]
pub fn share_query(d: Device, channel: u8) -> Result<u8, Refusal>
    ensures { result ≡ share_query d channel }
{
    if !shares::is_channel(channel) {
        return Err(Refusal::NoChannel);
    }
    Ok(shares::share_of(d.instrument.table, d.instrument.polyphony, channel).unwrap_or(0))
}

// Whether it is a rhythm channel; what is no channel is none.
#[tactic(auto, unfolding(crate::specs::Queries::rhythm_query))]
pub fn rhythm_query(d: Device, channel: u8) -> bool
    ensures { result ≡ rhythm_query d channel }
{
    d.instrument.is_rhythm(channel)
}
