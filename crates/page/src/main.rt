// The program that writes a device's service page (R17.5), which is in crate `filters`: on standard input P, the own
// ID, then MIDI bytes, as for the listing program; on standard output, after the last byte, the 323 bytes of the
// page, or at once the number of a refused start in decimal on a line. It ends with the status that this call answers,
// 1 for a refused start. Assumes nothing.
#![tactic(auto)]

use std::process::ExitCode;

fn main(rt: HostRuntime) -> ExitCode {
    ExitCode::from(filters::page_status(&rt) as u8)
}
