// What commands of several kinds answer. Assumes nothing.
use refusals::Refusal;
use text::put;

pub(crate) fn put_malformed(page: &mut [u8], at: usize) -> usize {
    put(page, at, b"malformed\n")
}

// The number of a refused query.
pub(crate) fn put_refused(page: &mut [u8], at: usize, refusal: Refusal) -> usize {
    let k = text::put_number(page, at, u64::from(refusal.number()));
    put(page, k, b"\n")
}

// Bytes of a buffer, shown if they are few.
pub(crate) fn put_few(page: &mut [u8], at: usize, bytes: &[u8]) -> usize {
    if (0 < bytes.len()) & (bytes.len() <= 64) {
        let k = text::put_bytes(page, at, bytes);
        return put(page, k, b"\n");
    }
    at
}
