// The command H: the hardest song, in a buffer of its own. Assumes nothing.
use crate::answers::{put_few, put_malformed, put_refused};
use refusals::Refusal;
use text::put;

fn put_song(page: &mut [u8], at: usize, answer: Result<u32, Refusal>) -> usize {
    match answer {
        Ok(thefts) => {
            let k = put(page, at, b"song,");
            let l = text::put_number(page, k, u64::from(thefts));
            put(page, l, b"\n")
        }
        Err(refusal) => put_refused(page, at, refusal),
    }
}

// The song of n bytes in this buffer, whose bytes are shown.
fn put_played(page: &mut [u8], at: usize, polyphony: u8, n: usize, buffer: &mut [u8]) -> usize {
    let answer = song::write_song(polyphony, n, buffer);
    let k = put_song(page, at, answer);
    put_few(page, k, buffer)
}

// The same in a buffer of so many bytes, all FF before.
pub(crate) fn put_song_asked(
    page: &mut [u8],
    at: usize,
    polyphony: u8,
    n: usize,
    length: usize,
) -> usize {
    let mut space = [0xFFu8; 65538];
    match space.get_mut(..length) {
        Some(buffer) => put_played(page, at, polyphony, n, buffer),
        None => put_malformed(page, at),
    }
}
