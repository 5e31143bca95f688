// The program that writes the hardest song (R17.2), which is in crate `filters`: a request a line in, P and n in
// decimal with a comma between them; on standard output P, the own ID 0 and the song of n bytes, which the listing
// program reads; on standard error an answer a line, number and thefts. It ends with the status that this call answers.
// Assumes nothing.
#![tactic(auto)]

use std::process::ExitCode;

fn main(rt: HostRuntime) -> ExitCode {
    ExitCode::from(filters::hardest_song_status(&rt) as u8)
}
