// The answers in plain numbers, as C and Rust have them (include/muntinorris.h), by value, for every answer and every
// record. Assumes nothing.
#![tactic(auto)]

ghost use Rattle.std.specs.Prelude.{◌≡◌};
ghost use Rattle.loops.specs.Cases.{or_zero};
ghost use Rattle.queries.specs.Queries.{generator_query, mask_query, share_query, rhythm_query};
ghost use Rattle.service.specs.Page.{page_number, page_after, page_answer};
ghost use Rattle.pitch.specs.Pitch.{pitch_of};
ghost use Rattle.numbers.specs.Numbers.{was_number, numbers_of, generator_numbers, mask_numbers, share_numbers};
ghost use Rattle.numbers.specs.Numbers.{rhythm_number};
ghost use Rattle.numbers.specs.Numbers.{pitch_numbers, GainsTold, GainsToldOf, song_numbers};

use allocation::Was;
use channels::Channel;
use device::Device;
use playing::Answer;
use refusals::Refusal;

// An answer: what (0 none, 1 done, 2 a note, 3 a number), the number, channel and key, the generator and what it was (0
// idle, 1 release, 2 stolen). A field without meaning is 0.
#[repr(C)]
#[derive(Clone, Copy)]
pub struct AnswerNumbers {
    pub what: u8,
    pub number: u8,
    pub channel: u8,
    pub key: u8,
    pub generator: u8,
    pub was: u8,
}

// A generator, or number 12 and zeros.
#[repr(C)]
#[derive(Clone, Copy)]
pub struct GeneratorNumbers {
    pub number: u8,
    pub state: u8,
    pub channel: u8,
    pub key: u8,
}

// Whether a channel is masked, 1 or 0, or number 14 and 0.
#[repr(C)]
#[derive(Clone, Copy)]
pub struct MaskNumbers {
    pub number: u8,
    pub masked: u8,
}

// The share of a channel, or number 14 and 0.
#[repr(C)]
#[derive(Clone, Copy)]
pub struct ShareNumbers {
    pub number: u8,
    pub share: u8,
}

// A pitch, its entry times 2 to the power of its octave, or number 21 with 65536 and 0.
#[repr(C)]
#[derive(Clone, Copy)]
pub struct PitchNumbers {
    pub entry: u32,
    pub octave: i8,
    pub number: u8,
}

// The gains of a channel, or number 24 with 0 and 0.
#[repr(C)]
#[derive(Clone, Copy)]
pub struct GainNumbers {
    pub left: f32,
    pub right: f32,
    pub number: u8,
}

// The thefts of a song, or number 1 or 25 with 0.
#[repr(C)]
#[derive(Clone, Copy)]
pub struct SongNumbers {
    pub thefts: u32,
    pub number: u8,
}

// The answer *none*: every field is 0.
const BLANK: AnswerNumbers = AnswerNumbers {
    what: 0,
    number: 0,
    channel: 0,
    key: 0,
    generator: 0,
    was: 0,
};

fn was_number(w: Was) -> u8
    ensures { result ≡ was_number w }
{
    match w {
        Was::Idle => 0,
        Was::Release => 1,
        Was::Stolen => 2,
    }
}

// Laid out within each call: what a byte that completes nothing is answered is known there.
#[inline(always)]
pub fn answer_numbers(a: Answer) -> AnswerNumbers
    ensures { result ≡ numbers_of a }
{
    match a {
        Answer::Nothing => BLANK,
        Answer::Done => AnswerNumbers { what: 1, ..BLANK },
        Answer::Note(channel, key, generator, was) => AnswerNumbers {
            what: 2,
            channel,
            key,
            generator,
            was: was_number(was),
            ..BLANK
        },
        Answer::NoNote(refusal, channel, key) => AnswerNumbers {
            what: 3,
            number: refusal.number(),
            channel,
            key,
            ..BLANK
        },
        Answer::Number(refusal) => AnswerNumbers {
            what: 3,
            number: refusal.number(),
            ..BLANK
        },
    }
}

pub fn generator_numbers(d: Device, g: u8) -> GeneratorNumbers
    ensures { result ≡ generator_numbers (generator_query d g) }
{
    match queries::generator_query(d, g) {
        Ok(s) => GeneratorNumbers {
            number: 0,
            state: s.state,
            channel: s.channel,
            key: s.key,
        },
        Err(refusal) => GeneratorNumbers {
            number: refusal.number(),
            state: 0,
            channel: 0,
            key: 0,
        },
    }
}

pub fn mask_numbers(d: Device, channel: u8) -> MaskNumbers
    ensures { result ≡ mask_numbers (mask_query d channel) }
{
    match queries::mask_query(d, channel) {
        Ok(masked) => MaskNumbers {
            number: 0,
            masked: u8::from(masked),
        },
        Err(refusal) => MaskNumbers {
            number: refusal.number(),
            masked: 0,
        },
    }
}

pub fn share_numbers(d: Device, channel: u8) -> ShareNumbers
    ensures { result ≡ share_numbers (share_query d channel) }
{
    match queries::share_query(d, channel) {
        Ok(share) => ShareNumbers { number: 0, share },
        Err(refusal) => ShareNumbers {
            number: refusal.number(),
            share: 0,
        },
    }
}

// 1 for a rhythm channel, 0 for any other.
pub fn rhythm_number(d: Device, channel: u8) -> u8
    ensures { result ≡ rhythm_number (rhythm_query d channel) }
{
    u8::from(queries::rhythm_query(d, channel))
}

// The service page into a lent buffer: 0, or number 18 for a buffer that is too short.
pub fn page_number(d: Device, page: &mut [u8]) -> u8
    ensures { (result ≡ or_zero (page_number (page_answer page.old)))
        × (page.new ≡ page_after d page.old) }
{
    match service::write_page(d, page) {
        Ok(()) => 0,
        Err(refusal) => refusal.number(),
    }
}

pub fn pitch_numbers(key: u8, sensitivity: u8, bend: u16) -> PitchNumbers
    ensures { result ≡ pitch_numbers (pitch_of key sensitivity bend) }
{
    match pitch::pitch_of(key, sensitivity, bend) {
        Ok(p) => PitchNumbers {
            entry: p.entry,
            octave: p.octave,
            number: 0,
        },
        Err(refusal) => PitchNumbers {
            entry: 65536,
            octave: 0,
            number: refusal.number(),
        },
    }
}

pub fn gain_numbers(expression: u8, volume: u8, pan: u8) -> GainNumbers
    ensures { GainsTold expression volume pan result }
{
    match gains::gains_of(expression, volume, pan) {
        Ok(g) => GainNumbers {
            left: g.left,
            right: g.right,
            number: 0,
        },
        Err(refusal) => GainNumbers {
            left: 0.0,
            right: 0.0,
            number: refusal.number(),
        },
    }
}

pub fn channel_gain_numbers(c: Channel) -> GainNumbers
    ensures { GainsToldOf c result }
{
    gain_numbers(c.expression, c.volume, c.pan)
}

pub fn song_numbers(song: Result<u32, Refusal>) -> SongNumbers
    ensures { result ≡ song_numbers song }
{
    match song {
        Ok(thefts) => SongNumbers { thefts, number: 0 },
        Err(refusal) => SongNumbers {
            thefts: 0,
            number: refusal.number(),
        },
    }
}
