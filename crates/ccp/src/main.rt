//! The command `ccp`: runs the whole tool on the process's words and streams.
#![tactic(auto)]

mod process;
mod words;

use ccp_base::{Reader, Writer};
use process::run_process;
use std::env;
use std::process::ExitCode;

fn main(rt: HostRuntime) -> ExitCode {
    run_process(
        &rt,
        rt.alloc(),
        env::args(&rt),
        &mut Reader::new(rt.stdin()),
        &mut Writer::new(rt.stdout()),
        &mut Writer::new(rt.stderr()),
    )
}
