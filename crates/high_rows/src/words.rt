//! Words for which there is no memory.
use ccp_base::{MemSink, NoMemory};
use ccp_run::Outcome;
use ccp_run::calls::without_words;
use std::alloc::{AllocError, Global};
use std::test::*;

/// Ends without memory for the words, without the clause, which the proof of the test would search.
fn end_without_memory(alloc: Global, errors: &mut MemSink) -> Outcome {
    without_words(alloc, errors, NoMemory::from(AllocError))
}

/// Whether a run without memory for its words ends with 6 and reports that.
fn reports_no_memory(alloc: Global) -> bool {
    let mut errors = MemSink::new(alloc, 16, &[]);
    let outcome = end_without_memory(alloc, &mut errors);
    outcome.status == 6 && errors.as_slice() == b"ccp: no memory\n".as_slice()
}

#[test]
fn out_of_memory_for_the_words_ends_with_6(rt: HostRuntime) {
    assert!(rt; reports_no_memory(rt.alloc()));
}
