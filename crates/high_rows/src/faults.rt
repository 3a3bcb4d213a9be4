//! Each read and each write of a run fails in turn. A call takes 16 bytes.
use crate::feeds::{MEASURE, REPORTING, join_parts};
use crate::runs::{FIRST_REPORT, FailingCalls, NONE_FAILS, ONE_CASE, run_on_words};
use std::alloc::Global;
use std::process::Abort;
use std::sync::Wait;
use std::test::Fail;
use std::thread::Threads;

/// A program that needs 8 temporaries.
const NEED_8: &[u8] =
    b"(def (a 1)) (when true (:= Cwnd (+ (+ a a) (+ (+ a a) (+ (+ a a) (+ (+ a a) (+ (+ a a) (+ (+ a a) (+ (+ a a) (+ a a))))))))))";

/// The words of a run, and its input.
#[derive(Clone, Copy)]
struct Given<'a> {
    words: &'a [&'a str],
    input: &'a [u8],
}

const GIVEN: [Given<'static>; 4] = [
    Given {
        words: &["ccp", "fold"],
        input: FIRST_REPORT,
    },
    Given {
        words: &["ccp", "check"],
        input: NEED_8,
    },
    Given {
        words: &["ccp", "campaign"],
        input: ONE_CASE,
    },
    Given {
        words: &["ccp", "live"],
        input: ONE_CASE,
    },
];

/// A feed of this input.
fn feed_of(input: &[u8]) -> Given<'_> {
    Given {
        words: &["ccp", "feed"],
        input,
    }
}

/// Whether a run whose read of this number fails ends so, and has written this.
fn is_read_fault<R: Threads + Wait + Sync>(
    rt: &R,
    alloc: Global,
    given: Given<'_>,
    call: u64,
    output: &[u8],
) -> Result<bool, Fail> {
    let failing = [call];
    let calls = FailingCalls {
        read: &failing,
        write: &[],
        report: &[],
        most: 16,
    };
    let run = run_on_words(rt, alloc, given.words, given.input, calls)?;
    Ok(run.is(4, output, b"ccp: read fault\n") && run.programs == 0)
}

/// Whether a run whose write of this number fails ends with a write fault, and has written what came before of this
/// output.
fn is_write_fault<R: Threads + Wait + Sync>(
    rt: &R,
    alloc: Global,
    given: Given<'_>,
    call: u64,
    output: &[u8],
) -> Result<bool, Fail> {
    let failing = [call];
    let calls = FailingCalls {
        read: &[],
        write: &failing,
        report: &[],
        most: 16,
    };
    let front = &output[..output.len().min((call as usize).saturating_mul(16))];
    let run = run_on_words(rt, alloc, given.words, given.input, calls)?;
    Ok(run.is(5, front, b"ccp: write fault\n") && run.programs == 0)
}

/// Lets each read fail, and asserts how the run ends.
fn assert_reads_fail<R: Threads + Wait + Sync>(
    rt: &R,
    abort: &impl Abort,
    alloc: Global,
    given: Given<'_>,
) -> Result<(), Fail> {
    for call in 0..=given.input.len().div_ceil(16) {
        assert!(abort;
            is_read_fault(rt, alloc, given, call as u64, b"")?,
            "read {call}"
        );
    }
    Ok(())
}

/// Lets each write of this output fail, and asserts how the run ends.
fn assert_writes_fail<R: Threads + Wait + Sync>(
    rt: &R,
    abort: &impl Abort,
    alloc: Global,
    given: Given<'_>,
    output: &[u8],
) -> Result<(), Fail> {
    for call in 0..output.len().div_ceil(16) {
        assert!(abort;
            is_write_fault(rt, alloc, given, call as u64, output)?,
            "write {call}"
        );
    }
    Ok(())
}

/// Lets each write of a run fail that ends well otherwise, and asserts how it ends.
fn assert_writes_fail_after_a_run<R: Threads + Wait + Sync>(
    rt: &R,
    abort: &impl Abort,
    alloc: Global,
    given: Given<'_>,
) -> Result<(), Fail> {
    let whole = run_on_words(rt, alloc, given.words, given.input, NONE_FAILS)?;
    if whole.status != 0 {
        return Err("the run doesn't end well".into());
    }
    assert_writes_fail(rt, abort, alloc, given, whole.output.as_slice())
}

#[test]
fn each_read_and_each_write_fails(rt: HostRuntime) -> Result<(), Fail> {
    for given in &GIVEN {
        assert_reads_fail(&rt, &rt, rt.alloc(), *given)?;
        assert_writes_fail_after_a_run(&rt, &rt, rt.alloc(), *given)?;
    }
    Ok(())
}

/// Asserts how a feed ends if a read fails: the report is answered before the last one, which finds the end.
fn assert_feed_reads_fail<R: Threads + Wait + Sync>(
    rt: &R,
    abort: &impl Abort,
    alloc: Global,
    given: Given<'_>,
) -> Result<(), Fail> {
    let reads = given.input.len().div_ceil(16) as u64;
    for call in 0..reads {
        assert!(abort; is_read_fault(rt, alloc, given, call, b"")?, "read {call}");
    }
    assert!(abort;
        is_read_fault(rt, alloc, given, reads, MEASURE)?,
        "the last read"
    );
    Ok(())
}

#[test]
fn each_read_of_a_feed_fails(rt: HostRuntime) -> Result<(), Fail> {
    let input = join_parts(rt.alloc(), &REPORTING)?;
    assert_feed_reads_fail(&rt, &rt, rt.alloc(), feed_of(input.as_slice()))
}

/// Asserts how a feed ends if a write fails: two flushes follow the four writes of the answer.
fn assert_feed_writes_fail<R: Threads + Wait + Sync>(
    rt: &R,
    abort: &impl Abort,
    alloc: Global,
    given: Given<'_>,
) -> Result<(), Fail> {
    for call in 0..6 {
        assert!(abort;
            is_write_fault(rt, alloc, given, call, MEASURE)?,
            "write {call}"
        );
    }
    Ok(())
}

#[test]
fn each_write_of_a_feed_fails(rt: HostRuntime) -> Result<(), Fail> {
    let input = join_parts(rt.alloc(), &REPORTING)?;
    assert_feed_writes_fail(&rt, &rt, rt.alloc(), feed_of(input.as_slice()))
}
