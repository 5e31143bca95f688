// What an ended SysEx does to the sound module, and what it answers (R2.7, R3.3, R3.6, R3.7): a MIP message, GM
// System On, or nothing for us. By value, for every value. Assumes nothing.
#![tactic(auto)]

ghost use Rattle.std.specs.Prelude.{◌≡◌};
ghost use Rattle.splitter.specs.Split.{body};
ghost use Rattle.exclusive.specs.Exclusive.{new_table, mip_taken, exclusive};

use instrument::Instrument;
use playing::{Answer, Reply};
use splitter::Parser;
use sysex::Kind;
use table::Table;

// An accepted MIP message: its table replaces the old one, and newly masked channels give way.
#[tactic(auto, unfolding(crate::specs::Exclusive::new_table))]
fn new_table(i: Instrument, table: Table) -> Instrument
    ensures { result ≡ new_table i table }
{
    Instrument {
        table,
        generators: masking::mask(i.generators, i.polyphony, i.table, table),
        ..i
    }
}

#[tactic(auto, unfolding(crate::specs::Exclusive::mip_taken))]
fn mip(i: Instrument, p: Parser) -> Reply
    ensures { result ≡ mip_taken i (body p) }
{
    match mip::judge(p) {
        Ok(table) => Reply::new(Answer::Done, new_table(i, table)),
        Err(refusal) => Reply::new(Answer::Number(refusal), i),
    }
}

// An ended SysEx, whose data bytes are those of parser p.
#[tactic(auto, unfolding(crate::specs::Exclusive::exclusive))]
pub fn take(i: Instrument, p: Parser) -> Reply
    ensures { result ≡ exclusive i (body p) }
{
    match sysex::kind_of(p, i.id) {
        Kind::Mip => mip(i, p),
        Kind::SystemOn => Reply::new(Answer::Done, Instrument::fresh(i.polyphony, i.id)),
        Kind::Other => Reply::new(Answer::Nothing, i),
    }
}
