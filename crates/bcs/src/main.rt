//! The program `bcs`.
#![tactic(auto)]

use std::process::ExitCode;

fn main(rt: HostRuntime) -> ExitCode {
    bcs_tool::program(&rt)
}
