// The commands K and L: pitches and gains. Assumes nothing.
ghost use Rattle.std.specs.Prelude.{not, T};
ghost use Rattle.std.specs.Float.Ieee.{is_nan};
ghost use Rattle.gains.specs.Gains.{gains_in};

use crate::answers::put_refused;
use channels::Channel;
use gains::Gains;
use pitch::Pitch;
use refusals::Refusal;
use text::put;

fn put_pitch(page: &mut [u8], at: usize, answer: Result<Pitch, Refusal>) -> usize {
    match answer {
        Ok(p) => {
            let k = put(page, at, b"pitch");
            pitch_lines::put_pitch(page, k, p)
        }
        Err(refusal) => put_refused(page, at, refusal),
    }
}

pub(crate) fn put_pitch_asked(
    page: &mut [u8],
    at: usize,
    key: u8,
    sensitivity: u8,
    msb: u8,
    lsb: u8,
) -> usize {
    let bend = u16::from(msb) * 128 + u16::from(lsb);
    put_pitch(page, at, pitch::pitch_of(key, sensitivity, bend))
}

// A gain in hundred-thousandths, to the nearest, from the bits of its float: 24 binary digits, of which the exponent
// says how many stand behind the point.
fn hundred_thousandths(bits: u32) -> u64 {
    let exponent = bits / 0x800000;
    if exponent < 100 {
        return 0;
    }
    // no gain is as large as this
    if 150 < exponent {
        return 999999;
    }
    let digits = (bits % 0x800000 + 0x800000) as u64;
    let halves = (digits * 200000) >> (150 - exponent);
    halves - halves / 2
}

// The last digit of a number.
fn put_digit(page: &mut [u8], at: usize, n: u64) -> usize {
    text::put_byte(page, at, b'0' + (n % 10) as u8)
}

fn put_gain(page: &mut [u8], at: usize, bits: u32) -> usize {
    let n = hundred_thousandths(bits);
    let a = put(page, at, b",");
    let b = put_digit(page, a, n / 100000);
    let c = put(page, b, b".");
    let d = put_digit(page, c, n / 10000);
    let e = put_digit(page, d, n / 1000);
    let f = put_digit(page, e, n / 100);
    let g = put_digit(page, f, n / 10);
    put_digit(page, g, n)
}

fn put_both(page: &mut [u8], at: usize, left: u32, right: u32) -> usize {
    let a = put(page, at, b"gains");
    let b = put_gain(page, a, left);
    let c = put_gain(page, b, right);
    put(page, c, b"\n")
}

fn put_gains(page: &mut [u8], at: usize, answer: Result<Gains, Refusal>) -> usize
    requires { T (not (is_nan (gains_in answer).left)) × T (not (is_nan (gains_in answer).right)) }
{
    match answer {
        Ok(g) => put_both(page, at, g.left.to_bits(), g.right.to_bits()),
        Err(refusal) => put_refused(page, at, refusal),
    }
}

pub(crate) fn put_levels_asked(
    page: &mut [u8],
    at: usize,
    expression: u8,
    volume: u8,
    pan: u8,
) -> usize {
    put_gains(page, at, gains::gains_of(expression, volume, pan))
}

pub(crate) fn put_channel_levels(page: &mut [u8], at: usize, c: Channel) -> usize {
    put_gains(page, at, gains::channel_gains(c))
}
