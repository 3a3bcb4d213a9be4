//! What runs tell beside their output: how many programs there were, and how many instructions ran.
use crate::runs::{NONE_FAILS, run_on_words};
use std::alloc::Global;
use std::sync::Wait;
use std::test::Fail;
use std::thread::Threads;

/// A mode with an input, the status of its run, and how many programs and instructions it tells.
struct Told {
    mode: &'static str,
    input: &'static [u8],
    status: u8,
    programs: usize,
    ran: u64,
}

const TOLD: [Told; 6] = [
    Told {
        mode: "fold",
        input: b"(def) (when true (report))\n---\nnow=1\nnow=2\n",
        status: 0,
        programs: 1,
        ran: 4,
    },
    Told {
        mode: "fold",
        input: b"(def) (when true (report))\n---\n",
        status: 0,
        programs: 1,
        ran: 0,
    },
    Told {
        mode: "fold",
        input: b"(def) (when false (report))\n---\nnow=1\nnow=2\nnow=3\n",
        status: 0,
        programs: 1,
        ran: 3,
    },
    Told {
        mode: "fold",
        input: b"(def (Report (x 0))) (when true (:= Report.x (/ 1 0)) (report))\n---\nnow=1\nnow=2\n",
        status: 0,
        programs: 1,
        ran: 2,
    },
    Told {
        mode: "check",
        input: b"(def)",
        status: 0,
        programs: 1,
        ran: 0,
    },
    Told {
        mode: "check",
        input: b"(def",
        status: 3,
        programs: 0,
        ran: 0,
    },
];

/// Whether a run tells what the row says.
fn is_told<R: Threads + Wait + Sync>(rt: &R, alloc: Global, row: &Told) -> Result<bool, Fail> {
    let run = run_on_words(rt, alloc, &["ccp", row.mode], row.input, NONE_FAILS)?;
    Ok(run.status == row.status && run.programs == row.programs && run.ran == row.ran)
}

#[test]
fn programs_and_instructions_are_told(rt: HostRuntime) -> Result<(), Fail> {
    for row in &TOLD {
        assert!(rt; is_told(&rt, rt.alloc(), row)?, "{:?}", row.input);
    }
    Ok(())
}
