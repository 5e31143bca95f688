// The device for C and Rust: functions over a record that the caller owns and lends, and answers in plain numbers
// (include/muntinorris.h). Every one has the exact contract of the call by value that it stands for, for every value of
// the record. Assumes nothing; a pointer that is no record is the caller's error.
#![tactic(auto)]

ghost use Rattle.std.specs.Prelude.{◌≡◌};
ghost use Rattle.loops.specs.Cases.{or_zero};
ghost use Rattle.device.specs.Device.{started};
ghost use Rattle.events.specs.Events.{taken};
ghost use Rattle.events.specs.declared.Event.TheVariants.{Byte, Report};
ghost use Rattle.queries.specs.Queries.{generator_query, mask_query, share_query, rhythm_query};
ghost use Rattle.service.specs.Page.{page_number, page_after, page_answer};
ghost use Rattle.pitch.specs.Pitch.{pitch_of};
ghost use Rattle.song.specs.Song.{song_answer, song_written};
ghost use Rattle.arranging.specs.Arranging.{message};
ghost use Rattle.arranging.specs.Run.{heard, begun, finished};
ghost use Rattle.numbers.specs.Numbers.{numbers_of, generator_numbers, mask_numbers, share_numbers, rhythm_number};
ghost use Rattle.numbers.specs.Numbers.{pitch_numbers, GainsTold, GainsToldOf, song_numbers};

use arranging::{Run, Written};
use channels::Channel;
use device::Device;
use numbers::{
    AnswerNumbers, GainNumbers, GeneratorNumbers, MaskNumbers, PitchNumbers, ShareNumbers,
    SongNumbers,
};

// The record becomes that of a start, whatever it was.
#[unsafe(no_mangle)]
pub extern "C" fn muntinorris_start(d: &mut Device, polyphony: u8, id: u8) -> AnswerNumbers
    ensures { (result ≡ numbers_of (started polyphony id).answer) × (d.new ≡ (started polyphony id).device) }
{
    let o = device::start(polyphony, id);
    *d = o.device;
    numbers::answer_numbers(o.answer)
}

// A MIDI byte.
#[unsafe(no_mangle)]
pub extern "C" fn muntinorris_byte(d: &mut Device, byte: u8) -> AnswerNumbers
    ensures { (result ≡ numbers_of (taken d.old (Byte byte)).answer)
        × (d.new ≡ (taken d.old (Byte byte)).device) }
{
    numbers::answer_numbers(driver::byte(d, byte))
}

// A generator has rung out (R7.1).
#[unsafe(no_mangle)]
pub extern "C" fn muntinorris_report(d: &mut Device, generator: u8) -> AnswerNumbers
    ensures { (result ≡ numbers_of (taken d.old (Report generator)).answer)
        × (d.new ≡ (taken d.old (Report generator)).device) }
{
    numbers::answer_numbers(driver_reports::report(d, generator))
}

// The state, channel and key of a generator.
#[unsafe(no_mangle)]
pub extern "C" fn muntinorris_generator(d: &Device, generator: u8) -> GeneratorNumbers
    ensures { result ≡ generator_numbers (generator_query d.now generator) }
{
    numbers::generator_numbers(*d, generator)
}

// Whether a channel is masked.
#[unsafe(no_mangle)]
pub extern "C" fn muntinorris_mask(d: &Device, channel: u8) -> MaskNumbers
    ensures { result ≡ mask_numbers (mask_query d.now channel) }
{
    numbers::mask_numbers(*d, channel)
}

// The share of a channel, 0 if it is masked.
#[unsafe(no_mangle)]
pub extern "C" fn muntinorris_share(d: &Device, channel: u8) -> ShareNumbers
    ensures { result ≡ share_numbers (share_query d.now channel) }
{
    numbers::share_numbers(*d, channel)
}

// Whether it is a rhythm channel, 1 or 0.
#[unsafe(no_mangle)]
pub extern "C" fn muntinorris_rhythm(d: &Device, channel: u8) -> u8
    ensures { result ≡ rhythm_number (rhythm_query d.now channel) }
{
    numbers::rhythm_number(*d, channel)
}

// The service page, in the first 323 bytes of the lent buffer: 0, or 18 for a buffer that has fewer.
#[unsafe(no_mangle)]
pub extern "C" fn muntinorris_page(d: &Device, page: &mut [u8]) -> u8
    ensures { (result ≡ or_zero (page_number (page_answer page.old)))
        × (page.new ≡ page_after d.now page.old) }
{
    numbers::page_number(*d, page)
}

// The pitch of a key, with the sensitivity and the bend of its channel.
#[unsafe(no_mangle)]
pub extern "C" fn muntinorris_pitch(key: u8, sensitivity: u8, bend: u16) -> PitchNumbers
    ensures { result ≡ pitch_numbers (pitch_of key sensitivity bend) }
{
    numbers::pitch_numbers(key, sensitivity, bend)
}

// The gains left and right of a channel with this expression, volume and pan.
#[unsafe(no_mangle)]
pub extern "C" fn muntinorris_gains(expression: u8, volume: u8, pan: u8) -> GainNumbers
    ensures { GainsTold expression volume pan result }
{
    numbers::gain_numbers(expression, volume, pan)
}

// The gains left and right of a channel by its numbers in the record.
#[unsafe(no_mangle)]
pub extern "C" fn muntinorris_channel_gains(c: &Channel) -> GainNumbers
    ensures { GainsToldOf c.now result }
{
    numbers::channel_gain_numbers(*c)
}

// The hardest song of n bytes for a fresh device of this polyphony, written into the lent buffer and played while it is
// written.
#[unsafe(no_mangle)]
pub extern "C" fn muntinorris_write_song(polyphony: u8, n: usize, song: &mut [u8]) -> SongNumbers
    ensures { (result ≡ song_numbers (song_answer polyphony n song.old))
        × (song.new ≡ song_written polyphony n song.old) }
{
    numbers::song_numbers(song::write_song(polyphony, n, song))
}

// A log is begun with this order of the channels: the record becomes that, whatever it was. 0, or 16 for an order that
// is none.
#[unsafe(no_mangle)]
pub extern "C" fn muntinorris_log_begin(log: &mut Run, order: &[u8]) -> u8
    ensures { (result ≡ (begun order.now).song.number) × (log.new ≡ begun order.now) }
{
    let fresh = arranging::begin(order);
    *log = fresh;
    fresh.song.number
}

// A part of the log. The number that has fallen so far, or 0.
#[unsafe(no_mangle)]
pub extern "C" fn muntinorris_log_part(log: &mut Run, part: &[u8]) -> u8
    ensures { (result ≡ (heard log.old part.now).song.number)
        × (log.new ≡ heard log.old part.now) }
{
    let next = arranging::take(*log, part);
    *log = next;
    next.song.number
}

// The message of the log as far as it was given.
#[unsafe(no_mangle)]
pub extern "C" fn muntinorris_log_end(log: &Run) -> Written
    ensures { result ≡ finished log.now }
{
    arranging::end(*log)
}

// The message of an order and a whole log.
#[unsafe(no_mangle)]
pub extern "C" fn muntinorris_mip_from_log(order: &[u8], log: &[u8]) -> Written
    ensures { result ≡ message order.now log.now }
{
    arranging::message(order, log)
}
