// What controllers do to a channel's numbers, and which of them end notes (R6.6 to R6.13), by value, for every value.
// Masks are no matter here: a masked channel's controllers are stored like any other's (R6.14). What becomes of the
// notes is in crate other_messages. Assumes nothing.
#![tactic(auto)]

ghost use Rattle.std.specs.Prelude.{◌≡◌};
ghost use Rattle.controllers.specs.Controllers.{data_entry, stored, reset, controlled};
ghost use Rattle.controllers.specs.Controllers.{lifts_pedal, silences_all, ends_all};

use channels::Channel;

// The sensitivity after Data Entry MSB: bend sensitivity is the only registered parameter here. Its LSB, controller 38,
// changes nothing; controller 32 is the LSB of the bank.
#[tactic(auto, unfolding(crate::specs::Controllers::data_entry))]
fn data_entry(channel: Channel, v: u8) -> u8
    ensures { result ≡ data_entry channel v }
{
    if channel.rpn_msb == 0 && channel.rpn_lsb == 0 {
        v.min(Channel::SENSITIVITY_LIMIT)
    } else {
        channel.sensitivity
    }
}

// A non-registered parameter number, 98 or 99, takes the registered one out of use.
#[tactic(auto, unfolding(crate::specs::Controllers::stored))]
fn store(channel: Channel, n: u8, v: u8) -> Channel
    ensures { result ≡ stored channel n v }
{
    let mut c = channel;
    match n {
        0 => c.bank_msb = v,
        1 => c.modulation = v,
        6 => c.sensitivity = data_entry(channel, v),
        7 => c.volume = v,
        10 => c.pan = v,
        11 => c.expression = v,
        32 => c.bank_lsb = v,
        64 => c.hold = v,
        98 | 99 => {
            c.rpn_msb = Channel::RPN;
            c.rpn_lsb = Channel::RPN;
        }
        100 => c.rpn_lsb = v,
        101 => c.rpn_msb = v,
        _ => {}
    }
    c
}

// Reset All Controllers keeps program, bank, volume, pan and sensitivity.
#[tactic(auto, unfolding(crate::specs::Controllers::reset))]
fn reset(channel: Channel) -> Channel
    ensures { result ≡ reset channel }
{
    Channel {
        modulation: Channel::MODULATION,
        expression: Channel::EXPRESSION,
        hold: Channel::HOLD,
        rpn_msb: Channel::RPN,
        rpn_lsb: Channel::RPN,
        bend_msb: Channel::BEND_MSB,
        bend_lsb: Channel::BEND_LSB,
        ..channel
    }
}

// The channel's numbers after controller n with value v.
#[tactic(auto, unfolding(crate::specs::Controllers::controlled))]
pub fn control(channel: Channel, n: u8, v: u8) -> Channel
    ensures { result ≡ controlled channel n v }
{
    if n == 121 && v == 0 {
        reset(channel)
    } else {
        store(channel, n, v)
    }
}

// Whether it lifts the pedal: hold, or Reset All Controllers.
pub fn lifts_pedal(n: u8, v: u8) -> bool
    ensures { result ≡ lifts_pedal n v }
{
    (n == 64 && v < 64) || (n == 121 && v == 0)
}

// Whether it ends every note of the channel at once: All Sound Off.
pub fn silences_all(n: u8, v: u8) -> bool
    ensures { result ≡ silences_all n v }
{
    n == 120 && v == 0
}

// Whether it is a note-off for each key of the channel: All Notes Off, and with any value the four that elsewhere
// change the mode, Omni Mode Off and On, Mono Mode On and Poly Mode On.
pub fn ends_all(n: u8, v: u8) -> bool
    ensures { result ≡ ends_all n v }
{
    (n == 123 && v == 0) || matches!(n, 124..=127)
}
