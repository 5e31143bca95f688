// The device: its start (R1.10, R8.1, R8.2) and its bytes (section 4 of docs/RULES.md), by value, for every value of
// the record. Reports are in crate `reports`, and both kinds of event together in crate `events`. Assumes nothing.
#![tactic(auto)]

ghost use Rattle.std.specs.Prelude.{◌≡◌};
ghost use Rattle.device.specs.Device.{fresh_device, started, heard, byte_taken};

use instrument::Instrument;
use playing::{Answer, Reply};
use refusals::Refusal;
use splitter::{Completed, Parser};

// The device record.
#[repr(C)]
#[derive(Clone, Copy)]
pub struct Device {
    pub parser: Parser,
    pub instrument: Instrument,
}

// An answer, and the record after it.
#[derive(Clone, Copy)]
pub struct Output {
    pub answer: Answer,
    pub device: Device,
}

impl Device {
    // P is 1 to this, the own ID 0 to the other.
    pub const MOST_GENERATORS: u8 = 64;

    pub const HIGHEST_ID: u8 = 126;

    // The record of a start. Private, so that a device has its P and ID by `start` alone.
    fn fresh(polyphony: u8, id: u8) -> Self
        ensures { result ≡ fresh_device polyphony id }
    {
        Device {
            parser: Parser::new(),
            instrument: Instrument::fresh(polyphony, id),
        }
    }
}

// A refused start leaves a working device with one generator and own ID 0.
#[tactic(auto, unfolding(crate::specs::Device::started))]
pub fn start(polyphony: u8, id: u8) -> Output
    ensures { result ≡ started polyphony id }
{
    if polyphony < 1 || Device::MOST_GENERATORS < polyphony {
        return Output {
            answer: Answer::Number(Refusal::WrongPolyphony),
            device: Device::fresh(1, 0),
        };
    }
    if Device::HIGHEST_ID < id {
        return Output {
            answer: Answer::Number(Refusal::WrongId),
            device: Device::fresh(1, 0),
        };
    }
    Output {
        answer: Answer::Done,
        device: Device::fresh(polyphony, id),
    }
}

// What a byte completed, with parser p as the byte found it.
#[tactic(auto, unfolding(crate::specs::Device::heard))]
pub fn take(i: Instrument, p: Parser, c: Completed) -> Reply
    ensures { result ≡ heard i p c }
{
    match c {
        Completed::Nothing => Reply::new(Answer::Nothing, i),
        Completed::Stray => Reply::new(Answer::Number(Refusal::Stray), i),
        Completed::Cut => Reply::new(Answer::Number(Refusal::Cut), i),
        Completed::Message(s, a, b) => playing::play(i, message::read(s, a, b)),
        Completed::SysEx => exclusive::take(i, p),
    }
}

// A MIDI byte.
#[tactic(auto, unfolding(crate::specs::Device::byte_taken))]
pub fn byte(d: Device, b: u8) -> Output
    ensures { result ≡ byte_taken d b }
{
    let s = d.parser.split(b);
    let r = take(d.instrument, d.parser, s.completed);
    Output {
        answer: r.answer,
        device: Device {
            parser: s.parser,
            instrument: r.instrument,
        },
    }
}
