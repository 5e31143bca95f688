// The listing program (section 16 of docs/RULES.md), which is in crate `filters`; it ends with the status that this call
// answers. Assumes nothing.
#![tactic(auto)]

use std::process::ExitCode;

fn main(rt: HostRuntime) -> ExitCode {
    ExitCode::from(filters::listing_status(&rt) as u8)
}
