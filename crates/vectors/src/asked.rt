// The commands G, M, S, D, T, W and C, which ask the device and change nothing, and L with one number, which asks for a
// channel's gains. Assumes nothing.
use crate::answers::{put_malformed, put_refused};
use crate::sounds::put_channel_levels;
use channels::Channel;
use device::Device;
use lines::put_field;
use queries::GeneratorState;
use refusals::Refusal;
use text::put;

// No operation makes a state above 3, releasing.
fn put_state(page: &mut [u8], at: usize, state: u8) -> usize {
    match state {
        0 => put(page, at, b",idle"),
        1 => put(page, at, b",held"),
        2 => put(page, at, b",sustained"),
        _ => put(page, at, b",releasing"),
    }
}

fn put_generator(
    page: &mut [u8],
    at: usize,
    g: u8,
    answer: Result<GeneratorState, Refusal>,
) -> usize {
    match answer {
        Ok(
            GeneratorState {
                state,
                channel,
                key,
            },
        ) => {
            let b = put(page, at, b"generator");
            let c = put_field(page, b, g);
            let d = put_state(page, c, state);
            let e = put_field(page, d, channel);
            let f = put_field(page, e, key);
            put(page, f, b"\n")
        }
        Err(refusal) => put_refused(page, at, refusal),
    }
}

fn put_mask(page: &mut [u8], at: usize, answer: Result<bool, Refusal>) -> usize {
    match answer {
        Ok(true) => put(page, at, b"masked\n"),
        Ok(false) => put(page, at, b"unmasked\n"),
        Err(refusal) => put_refused(page, at, refusal),
    }
}

fn put_share(page: &mut [u8], at: usize, answer: Result<u8, Refusal>) -> usize {
    match answer {
        Ok(n) => {
            let b = put(page, at, b"share");
            let c = put_field(page, b, n);
            put(page, c, b"\n")
        }
        Err(refusal) => put_refused(page, at, refusal),
    }
}

fn put_rhythm(page: &mut [u8], at: usize, rhythm: bool) -> usize {
    if rhythm {
        return put(page, at, b"rhythm\n");
    }
    put(page, at, b"melody\n")
}

// The shares of all channels, - for a masked one.
fn put_shares(page: &mut [u8], at: usize, d: Device) -> usize {
    let mut k = put(page, at, b"shares");
    for c in 1..=16 {
        k = match (queries::mask_query(d, c), queries::share_query(d, c)) {
            (Ok(false), Ok(n)) => put_field(page, k, n),
            _ => put(page, k, b",-"),
        };
    }
    put(page, k, b"\n")
}

// The line of each generator that is not idle.
fn put_players(page: &mut [u8], at: usize, d: Device) -> usize {
    let mut k = at;
    for g in 0..64 {
        let answer = queries::generator_query(d, g);
        if answer.is_ok_and(|a| a.state != 0) {
            k = put_generator(page, k, g, answer);
        }
    }
    k
}

fn put_controllers(page: &mut [u8], at: usize, x: Channel) -> usize {
    let a = put_field(page, at, x.modulation);
    let b = put_field(page, a, x.volume);
    let c = put_field(page, b, x.pan);
    let d = put_field(page, c, x.expression);
    put_field(page, d, x.hold)
}

fn put_bend(page: &mut [u8], at: usize, x: Channel) -> usize {
    let a = put_field(page, at, x.rpn_msb);
    let b = put_field(page, a, x.rpn_lsb);
    let c = put_field(page, b, x.bend_msb);
    let d = put_field(page, c, x.bend_lsb);
    put_field(page, d, x.sensitivity)
}

fn put_bank(page: &mut [u8], at: usize, x: Channel) -> usize {
    let a = put_field(page, at, x.bank_msb);
    put_field(page, a, x.bank_lsb)
}

fn put_numbers(page: &mut [u8], at: usize, x: Channel) -> usize {
    let a = put(page, at, b"numbers");
    let b = put_field(page, a, x.program);
    let c = put_controllers(page, b, x);
    let d = put_bend(page, c, x);
    let e = put_bank(page, d, x);
    put(page, e, b"\n")
}

// The answer to a command that asks the device.
pub(crate) fn put_asked(
    page: &mut [u8],
    at: usize,
    d: Device,
    command: u8,
    numbers: &[u8],
) -> usize {
    match (command, numbers) {
        (b'T', []) => put_shares(page, at, d),
        (b'W', []) => put_players(page, at, d),
        (b'G', &[g]) => put_generator(page, at, g, queries::generator_query(d, g)),
        (b'M', &[c]) => put_mask(page, at, queries::mask_query(d, c)),
        (b'S', &[c]) => put_share(page, at, queries::share_query(d, c)),
        (b'D', &[c]) => put_rhythm(page, at, queries::rhythm_query(d, c)),
        (b'C', &[c @ 1..=16]) => put_numbers(page, at, d.instrument.channel_of(c)),
        (b'L', &[c @ 1..=16]) => put_channel_levels(page, at, d.instrument.channel_of(c)),
        _ => put_malformed(page, at),
    }
}
