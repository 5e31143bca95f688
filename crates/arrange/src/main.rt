// The program that writes the MIP message of a song's log (R17.4), which is in crate `filters`: on standard input a
// line with the order, sixteen channels in decimal with a comma between each two, and behind it the log; on standard
// output the 38 bytes of the message, nothing where a number falls; on standard error a line, number, line and
// message. It ends with the status that this call answers. Assumes nothing.
#![tactic(auto)]

use std::process::ExitCode;

fn main(rt: HostRuntime) -> ExitCode {
    ExitCode::from(filters::arrange_status(&rt) as u8)
}
