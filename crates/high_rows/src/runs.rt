//! Runs on words.
use ccp_base::{Gate, MemSink, MemSource, OpenGate};
use ccp_run::{Outcome, run};
use std::alloc::Global;
use std::sync::Wait;
use std::test::Fail;
use std::thread::Threads;

/// A scenario of one flow of Reno's with four acknowledgements.
pub(crate) const ONE_CASE: &[u8] =
    b"{\"version\":1,\"traces\":{\"t\":\"10\\n\"},\"cases\":[{\"name\":\"a\",\"agent\":\"reno\",\"trace\":\"t\",\"mss\":1448,\"queue\":10,\"delay_us\":20000,\"timeout_us\":1000000,\"acks\":4}]}";

/// A fold of three acknowledgements.
pub(crate) const FIRST_REPORT: &[u8] =
    b"(def (Report (volatile acked 0))) (when true (:= Report.acked (+ Report.acked Ack.bytes_acked)) (fallthrough)) (when (> Report.acked 2999) (report))\n---\nbytes_acked=1500\nbytes_acked=1500\nbytes_acked=1500\n";

/// Which calls of the source, of the sink and of the error stream fail, and how many bytes a call of the source or of
/// the sink takes.
#[derive(Clone, Copy)]
pub(crate) struct FailingCalls<'a> {
    pub(crate) read: &'a [u64],
    pub(crate) write: &'a [u64],
    pub(crate) report: &'a [u64],
    pub(crate) most: usize,
}

/// No call fails, and each takes all that it is given.
pub(crate) const NONE_FAILS: FailingCalls<'static> = FailingCalls {
    read: &[],
    write: &[],
    report: &[],
    most: 4096,
};

/// The result of a run: its status, what it wrote and reported, and its numbers of programs and instructions.
#[derive(Drop)]
pub(crate) struct RunResult<'a> {
    pub(crate) status: u8,
    pub(crate) output: MemSink<'a>,
    pub(crate) errors: MemSink<'a>,
    pub(crate) programs: usize,
    pub(crate) ran: u64,
}

impl RunResult<'_> {
    /// Whether a run had this result.
    pub(crate) fn is(&self, status: u8, output: &[u8], errors: &[u8]) -> bool {
        self.status == status
            && self.output.as_slice() == output
            && self.errors.as_slice() == errors
    }
}

/// A run without clauses, so that the proofs of tests don't search what it promises.
fn run_plainly<R: Threads + Wait + Sync, G: Gate + Sync>(
    rt: &R,
    alloc: Global,
    words: Vec<String>,
    source: &mut MemSource<'_>,
    sink: &mut MemSink<'_>,
    errors: &mut MemSink<'_>,
    gate: &G,
) -> Outcome {
    run(rt, alloc, words, source, sink, errors, gate)
}

fn words_of(alloc: Global, given: &[&str]) -> Result<Vec<String>, Fail> {
    let mut words = Vec::new(alloc);
    for word in given {
        words.push(String::from_str(alloc, word)?)?;
    }
    Ok(words)
}

/// Runs the tool on these words under a gate.
pub(crate) fn run_under_gate<'a, R: Threads + Wait + Sync, G: Gate + Sync>(
    rt: &R,
    alloc: Global,
    given: &[&str],
    input: &[u8],
    calls: FailingCalls<'a>,
    gate: &G,
) -> Result<RunResult<'a>, Fail> {
    if calls.most == 0 {
        return Err("a call takes no bytes".into());
    }
    let words = words_of(alloc, given)?;
    let mut source = MemSource::new(input, calls.most, calls.read);
    let mut output = MemSink::new(alloc, calls.most, calls.write);
    let mut errors = MemSink::new(alloc, 4096, calls.report);
    let outcome = run_plainly(
        rt,
        alloc,
        words,
        &mut source,
        &mut output,
        &mut errors,
        gate,
    );
    Ok(RunResult {
        status: outcome.status,
        output,
        errors,
        programs: outcome.programs.len(),
        ran: outcome.ran,
    })
}

/// Runs the tool on these words.
pub(crate) fn run_on_words<'a, R: Threads + Wait + Sync>(
    rt: &R,
    alloc: Global,
    given: &[&str],
    input: &[u8],
    calls: FailingCalls<'a>,
) -> Result<RunResult<'a>, Fail> {
    run_under_gate(rt, alloc, given, input, calls, &OpenGate)
}
