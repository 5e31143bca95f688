// The record of the sound module without its parser: what acts on a whole message works on it (R1.10, R1.11). By
// value, for every value. Assumes nothing.
#![tactic(auto)]

ghost use Rattle.std.specs.Prelude.{◌≡◌};
ghost use Rattle.instrument.specs.Instrument.{fresh_channels, fresh, replaced, channel_of, with_channel};
ghost use Rattle.instrument.specs.Instrument.{with_kind, with_generators, pedal_down, is_rhythm};

use channels::Channel;
use generators::Generators;
use table::Table;

#[repr(C)]
#[derive(Clone, Copy)]
pub struct Instrument {
    // P, 1 to 64, and the own device ID, 0 to 126.
    pub polyphony: u8,
    pub id: u8,
    pub table: Table,
    // By what the wire carries, the channel minus 1.
    pub channels: [Channel; 16],
    // Of channel 11: RHYTHM or MELODY.
    pub kind: u8,
    pub generators: Generators,
}

// The channels with the one at a place replaced; all as they were at a place that there is not.
#[tactic(auto, unfolding(crate::specs::Instrument::replaced))]
fn replace(channels: [Channel; 16], at: u8, c: Channel) -> [Channel; 16]
    ensures { result ≡ replaced channels at c }
{
    let mut out = channels;
    let place = usize::from(at);
    if place < out.len() {
        out[place] = c;
    }
    out
}

// Channel 10 has the bank of the drums.
fn fresh_channels() -> [Channel; 16]
    ensures { result ≡ fresh_channels }
{
    let mut out = [Channel::fresh(); 16];
    out[9] = Channel::fresh_rhythm();
    out
}

impl Instrument {
    // The kinds of channel 11.
    pub const MELODY: u8 = 0;

    pub const RHYTHM: u8 = 1;

    #[tactic(auto, unfolding(crate::specs::Instrument::fresh))]
    pub fn fresh(polyphony: u8, id: u8) -> Self
        ensures { result ≡ fresh polyphony id }
    {
        Instrument {
            polyphony,
            id,
            table: Table::start(polyphony),
            channels: fresh_channels(),
            kind: Instrument::MELODY,
            generators: Generators::silent(),
        }
    }

    // The record of a channel; a fresh one where there is no such channel.
    #[tactic(auto, unfolding(crate::specs::Instrument::channel_of, crate::specs::Instrument::channel_at))]
    pub fn channel_of(self, channel: u8) -> Channel
        ensures { result ≡ channel_of self channel }
    {
        self.channels
            .get(usize::from(channel.saturating_sub(1)))
            .copied()
            .unwrap_or(Channel::fresh())
    }

    // With the record of a channel replaced by x.
    #[tactic(auto, unfolding(crate::specs::Instrument::with_channel))]
    pub fn with_channel(self, channel: u8, x: Channel) -> Self
        ensures { result ≡ with_channel self channel x }
    {
        Instrument {
            channels: replace(self.channels, channel.saturating_sub(1), x),
            ..self
        }
    }

    // With channel 11 made a rhythm channel or one of melody.
    pub fn with_kind(self, rhythm: bool) -> Self
        ensures { result ≡ with_kind self rhythm }
    {
        Instrument {
            kind: u8::from(rhythm),
            ..self
        }
    }

    pub fn with_generators(self, generators: Generators) -> Self
        ensures { result ≡ with_generators self generators }
    {
        Instrument { generators, ..self }
    }

    // Whether the hold pedal of a channel is down.
    pub fn pedal_down(self, channel: u8) -> bool
        ensures { result ≡ pedal_down self channel }
    {
        64 <= self.channel_of(channel).hold
    }

    // Whether it is a rhythm channel: its drums end by their reports, and exclude each other.
    #[tactic(auto, unfolding(crate::specs::Instrument::is_rhythm))]
    pub fn is_rhythm(self, channel: u8) -> bool
        ensures { result ≡ is_rhythm self channel }
    {
        channel == 10 || (channel == 11 && self.kind == Instrument::RHYTHM)
    }
}
