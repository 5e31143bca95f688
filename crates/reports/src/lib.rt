// The end of a generator's sound, as the tone generator reports it (R7.1, R7.2), by value, for every value. Assumes
// nothing.
#![tactic(auto)]

ghost use Rattle.std.specs.Prelude.{◌≡◌};
ghost use Rattle.reports.specs.Reports.{reported};

use instrument::Instrument;
use playing::{Answer, Reply};
use refusals::Refusal;
use silence::Leaving;

// Generator g has ended.
#[tactic(auto, unfolding(crate::specs::Reports::reported))]
pub fn ended(i: Instrument, g: u8) -> Reply
    ensures { result ≡ reported i g }
{
    if i.polyphony <= g {
        return Reply::new(Answer::Number(Refusal::NoGenerator), i);
    }
    if i.generators.state.get(usize::from(g)).copied().unwrap_or(0) == 0 {
        return Reply::new(Answer::Number(Refusal::IdleGenerator), i);
    }
    Reply::new(
        Answer::Done,
        i.with_generators(silence::fall_silent(i.generators, Leaving::One(g))),
    )
}
