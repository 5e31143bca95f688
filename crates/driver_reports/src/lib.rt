// The driver's side of a report (R1.11, R7.1): the record is lent, and is up to date when the call returns, as the call
// by value updates it, for every value of the record. Assumes nothing.
#![tactic(auto)]

ghost use Rattle.std.specs.Prelude.{◌≡◌};
ghost use Rattle.events.specs.Events.{taken};
ghost use Rattle.events.specs.declared.Event.TheVariants.{Report};

use device::Device;
use playing::Answer;

// Generator g has rung out (R7.1).
#[tactic(auto, unfolding(events::specs::Events::taken, events::specs::Events::report_taken))]
pub fn report(d: &mut Device, g: u8) -> Answer
    ensures { (result ≡ (taken d.old (Report g)).answer)
        × (d.new ≡ (taken d.old (Report g)).device) }
{
    let reply = reports::ended(d.instrument, g);
    d.instrument = reply.instrument;
    reply.answer
}
