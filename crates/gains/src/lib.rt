// The gains left and right of a channel (R12.1 to R12.10), for every expression, volume and pan: products of f32
// quotients, each with the bound of its rounding.
// Assumes nothing.
#![tactic(auto)]

ghost use Rattle.std.specs.Prelude.{◌≡◌, ◌≤◌, ◌<◌, ◌+◌, ◌-◌, ◌*◌};
ghost use Rattle.gains.specs.Gains.{weight, panned, Near, is_out, Answered, AnsweredOf, ForItsReason};

use channels::Channel;
use refusals::Refusal;

// What the mixer multiplies a channel by, 0 to 1.
#[derive(Clone, Copy)]
pub struct Gains {
    pub left: f32,
    pub right: f32,
}

// The weights: 32768 times the sine of a quarter circle in 126 steps, to the nearest whole number.
static WEIGHTS: [u16; 127] = [
    0, 408, 817, 1225, 1633, 2041, 2449, 2856, 3263, 3669, 4074, 4480, 4884, 5287, 5690, 6092,
    6493, 6893, 7292, 7689, 8086, 8481, 8875, 9267, 9659, 10048, 10436, 10823, 11207, 11590, 11971,
    12351, 12728, 13104, 13477, 13848, 14218, 14584, 14949, 15311, 15671, 16029, 16384, 16736,
    17086, 17434, 17778, 18120, 18459, 18795, 19128, 19458, 19785, 20110, 20431, 20748, 21063,
    21374, 21682, 21987, 22288, 22586, 22880, 23170, 23458, 23741, 24021, 24297, 24569, 24837,
    25102, 25362, 25619, 25872, 26120, 26365, 26606, 26842, 27074, 27302, 27526, 27745, 27961,
    28171, 28378, 28580, 28778, 28971, 29159, 29343, 29523, 29698, 29868, 30034, 30195, 30351,
    30503, 30650, 30792, 30929, 31062, 31189, 31312, 31430, 31543, 31651, 31755, 31853, 31946,
    32035, 32118, 32197, 32270, 32339, 32402, 32460, 32514, 32562, 32605, 32643, 32676, 32704,
    32727, 32745, 32758, 32765, 32768,
];

// The weight at a place, 0 to 126.
fn weight_at(p: u8) -> u16
    requires { p < 127 }
    ensures { (result ≡ weight p) × (result ≤ 32768) }
{
    WEIGHTS[p as usize]
}

// The place of a pan, 0 to 126: pans 0 and 1 share the first.
fn place_of(pan: u8) -> u8
    requires { pan < 128 }
    ensures { (result ≡ panned pan) × (result < 127) }
{
    pan.saturating_sub(1)
}

// (e / 127) squared, times (v / 127) squared, times w / 32768. 16129 is 127 squared.
fn gain(e: u8, v: u8, w: u16) -> f32
    requires { (e < 128) × (v < 128) × (w ≤ 32768) }
    ensures { Near e v w result }
{
    let e2 = (e as u16) * (e as u16);
    let v2 = (v as u16) * (v as u16);
    (e2 as f32 / 16129.0) * (v2 as f32 / 16129.0) * (w as f32 / 32768.0)
}

// The gains at a place: the weights mirror each other.
fn gains_at(e: u8, v: u8, p: u8) -> Gains
    requires { (e < 128) × (v < 128) × (p < 127) }
    ensures { Near e v (weight (126 - p)) result.left × Near e v (weight p) result.right }
{
    let left = weight_at(126 - p);
    let right = weight_at(p);
    Gains {
        left: gain(e, v, left),
        right: gain(e, v, right),
    }
}

// Whether one of the three is above 127.
fn is_out(expression: u8, volume: u8, pan: u8) -> bool
    ensures { result ≡ is_out expression volume pan }
{
    127 < expression || 127 < volume || 127 < pan
}

// The gains of a channel with this expression, volume and pan, each 0 to 127.
pub fn gains_of(expression: u8, volume: u8, pan: u8) -> Result<Gains, Refusal>
    ensures { Answered expression volume pan result × ForItsReason result }
{
    if is_out(expression, volume, pan) {
        return Err(Refusal::GainsOutOfRange);
    }
    Ok(gains_at(expression, volume, place_of(pan)))
}

// The gains of a channel by its numbers in the record.
pub fn channel_gains(c: Channel) -> Result<Gains, Refusal>
    ensures { AnsweredOf c result × ForItsReason result }
{
    gains_of(c.expression, c.volume, c.pan)
}
