// The hardest song of n bytes (R13.3 to R13.6): written into a lent buffer and played on a fresh device while it is
// written, with its thefts counted. That no song of n bytes makes more is stated and proved in crate `hardest`.
// Assumes nothing.
#![tactic(auto)]

ghost use Rattle.std.specs.Prelude.{◌≡◌, ◌≤◌};
ghost use Rattle.device.specs.Device.{is_wrong_p};
ghost use Rattle.song.specs.Song.{is_theft, song_byte, is_too_long, song_answer, song_written};

use allocation::Was;
use device::Device;
use playing::Answer;
use refusals::Refusal;

// The longest song.
pub const MOST_BYTES: usize = 65536;

// The byte of the song at i: the status, then keys at odd places and velocities at even ones.
#[tactic(auto, unfolding(crate::specs::Song::song_byte))]
fn song_byte(i: usize) -> u8
    ensures { result ≡ song_byte i }
{
    if i == 0 {
        return 0x90;
    }
    if i % 2 == 1 {
        return ((i - 1) / 2 % 128) as u8;
    }
    0x40
}

// Whether the answer is that of a note-on that stole its generator.
fn is_theft(a: Answer) -> bool
    ensures { result ≡ is_theft a }
{
    matches!(a, Answer::Note(_, _, _, Was::Stolen))
}

fn is_wrong_polyphony(polyphony: u8) -> bool
    ensures { result ≡ is_wrong_p polyphony }
{
    polyphony < 1 || Device::MOST_GENERATORS < polyphony
}

// Whether a song of n bytes is too long for a buffer of so many.
fn is_too_long(n: usize, room: usize) -> bool
    ensures { result ≡ is_too_long n room }
{
    MOST_BYTES < n || room < n
}

// Writes the song of n bytes into the buffer's first n bytes, plays each of them on a fresh device of this polyphony,
// and answers the thefts that the device told.
#[tactic(auto, unfolding(crate::specs::Song::song_answer, crate::specs::Song::song_written))]
pub fn write_song(polyphony: u8, n: usize, song: &mut [u8]) -> Result<u32, Refusal>
    ensures { (result ≡ song_answer polyphony n song.old)
        × (song.new ≡ song_written polyphony n song.old) }
{
    if is_wrong_polyphony(polyphony) {
        return Err(Refusal::WrongPolyphony);
    }
    if is_too_long(n, song.len()) {
        return Err(Refusal::SongTooLong);
    }
    let mut d = device::start(polyphony, 0).device;
    let mut thefts = 0;
    for i in 0..n {
        let b = song_byte(i);
        song[i] = b;
        let r = device::byte(d, b);
        thefts += u32::from(is_theft(r.answer));
        d = r.device;
    }
    Ok(thefts)
}
