// The command V: the service page, in a buffer of its own. Assumes nothing.
use crate::answers::{put_few, put_malformed, put_refused};
use device::Device;
use text::put;

// The service page in this buffer, and the bytes behind it.
fn put_service(page: &mut [u8], at: usize, d: Device, buffer: &mut [u8]) -> usize {
    if let Err(refusal) = service::write_page(d, buffer) {
        let k = put_refused(page, at, refusal);
        return put_few(page, k, buffer);
    }
    if buffer.len() < 323 {
        return put_malformed(page, at);
    }
    let k = put(page, at, &buffer[..323]);
    put_few(page, k, &buffer[323..])
}

// The same in a buffer of so many bytes, all FF before.
pub(crate) fn put_service_asked(page: &mut [u8], at: usize, d: Device, length: usize) -> usize {
    let mut space = [0xFFu8; 1024];
    match space.get_mut(..length) {
        Some(buffer) => put_service(page, at, d, buffer),
        None => put_malformed(page, at),
    }
}
