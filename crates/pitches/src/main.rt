// The pitch filter (R17.1), which is in crate `filters`: a call a line in, key, sensitivity and bend in decimal with
// commas between them; an answer a line out, number, octave and entry. It ends with the status that this call answers.
// Assumes nothing.
#![tactic(auto)]

use std::process::ExitCode;

fn main(rt: HostRuntime) -> ExitCode {
    ExitCode::from(filters::pitches_status(&rt) as u8)
}
