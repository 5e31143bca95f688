// The device by its events, bytes and reports, by value, for every value of the record. Assumes nothing.
#![tactic(auto)]

ghost use Rattle.std.specs.Prelude.{◌≡◌};
ghost use Rattle.events.specs.Events.{report_taken, taken};

use device::{Device, Output};

// What reaches the device.
#[derive(Clone, Copy)]
pub enum Event {
    // A MIDI byte.
    Byte(u8),
    // This generator has rung out.
    Report(u8),
}

// Generator g has rung out (R7.1).
#[tactic(auto, unfolding(crate::specs::Events::report_taken))]
pub fn report(d: Device, g: u8) -> Output
    ensures { result ≡ report_taken d g }
{
    let r = reports::ended(d.instrument, g);
    Output {
        answer: r.answer,
        device: Device {
            instrument: r.instrument,
            ..d
        },
    }
}

// An event of either kind.
#[tactic(auto, unfolding(crate::specs::Events::taken))]
pub fn apply(d: Device, e: Event) -> Output
    ensures { result ≡ taken d e }
{
    match e {
        Event::Byte(b) => device::byte(d, b),
        Event::Report(g) => report(d, g),
    }
}
