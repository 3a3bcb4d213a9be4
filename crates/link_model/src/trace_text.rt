//! How the lines of a trace's text are read, up to the first bad one.
ghost use Rattle.std.specs.Prelude.{◌≡◌, ℕ, ◌+◌, ◌^◌, ◌<◌, ◌≤◌, None, IfOk, IfErr, OnOk, ◌≢◌, [], ◌∷◌, ◌++◌, true, false, length};
ghost use Rattle.link_model.specs.TraceText.{without_first_blanks, without_last_blanks, word_line, trace_line, is_bad_line, with_time, time_after, times_of, first_bad_line, first_fall, fall_after, text_lines, IsAtFirstBad};
ghost use Rattle.link_model.specs.Traces.{period};
ghost use Rattle.link_model.specs.declared.trace.TraceFault.TheVariants as fault;

use crate::trace::{LONGEST_MS, TraceFault};
use ccp_base::{NoMemory, Separator, first_part, numeral, without_return};
use std::alloc::Global;

/// What one line of a trace text says.
#[derive(Clone, Copy)]
pub(crate) enum TraceLine {
    /// The line is blank.
    Nothing,
    /// A time in milliseconds, from 0 to 3,600,000.
    Time(u32),
    /// Anything else.
    Bad,
}

/// What was read of a trace text so far.
#[derive(Drop)]
pub(crate) struct TraceReading {
    /// The times, in milliseconds, unless a growth was refused.
    pub times: Vec<u32>,
    /// That the list couldn't grow, if it couldn't: then it lacks times.
    pub refused: Option<NoMemory>,
    /// How many times there are, those that the list lacks counted.
    pub count: u64,
    /// The last of them, or 0.
    pub before: u32,
    /// The number of the next line, from 1.
    pub line: u64,
    /// The first line whose time is below the one before.
    pub fall: Option<u64>,
}

impl TraceReading {
    /// Takes the next line in. A list that can't grow refuses nothing yet, since a later line may be bad.
    fn take(&mut self, line: TraceLine) -> Result<(), TraceFault>
        requires line { self.old.line + 1 < 2 ^ 64 }
        requires count { self.old.count < self.old.line }
        ensures good { OnOk result (is_bad_line line ≡ false) }
        ensures line { OnOk result (self.new.line ≡ self.old.line + 1) }
        ensures long { OnOk result (self.new.refused ≡ None → self.old.refused ≡ None) }
        ensures times { OnOk result (self.new.refused ≡ None
            → self.new.times.items ≡ self.old.times.items ++ with_time line []) }
        ensures count { OnOk result (self.new.count ≡ self.old.count + length (with_time line [])) }
        ensures few { OnOk result (self.new.count < self.new.line) }
        ensures before { OnOk result (self.new.before ≡ time_after line self.old.before) }
        ensures fall { OnOk result (self.new.fall ≡ fall_after self.old.fall line self.old.before self.old.line) }
        ensures bad { IfErr result (λ e. is_bad_line line ≡ true) }
        ensures at { IfErr result (λ e. e ≡ fault.BadLine self.old.line) }
    {
        match line {
            TraceLine::Bad => return Err(TraceFault::BadLine(self.line)),
            TraceLine::Nothing => {}
            TraceLine::Time(time) => {
                keep(&mut self.times, &mut self.refused, time);
                self.count += 1;
                if time < self.before {
                    self.fall = self.fall.or(Some(self.line));
                }
                self.before = time;
            }
        }
        self.line += 1;
        Ok(())
    }
}

/// Appends a time to a list, unless the list can't grow or couldn't before.
fn keep(times: &mut Vec<u32>, refused: &mut Option<NoMemory>, time: u32)
    ensures long { refused.new ≡ None → refused.old ≡ None }
    ensures times { refused.new ≡ None → times.new.items ≡ times.old.items ++ time ∷ [] }
{
    if refused.is_some() {
        return;
    }
    if let Err(error) = times.push(time) {
        *refused = Some(NoMemory::from(error));
    }
}

/// Reads every line of a trace text, up to the first bad one.
pub(crate) fn read_lines(alloc: Global, text: &[u8]) -> Result<TraceReading, TraceFault>
    ensures good { OnOk result (first_bad_line 1 (text_lines text.now) ≡ None) }
    ensures times { IfOk result (λ r. r.refused ≡ None → r.times.items ≡ times_of (text_lines text.now)) }
    ensures count { IfOk result (λ r. r.count ≡ length (times_of (text_lines text.now))) }
    ensures last { IfOk result (λ r. r.before ≡ period (times_of (text_lines text.now))) }
    ensures fall { IfOk result (λ r. r.fall ≡ first_fall 1 0 (text_lines text.now)) }
    ensures bad { IfErr result (λ e. first_bad_line 1 (text_lines text.now) ≢ None) }
    ensures at { IfErr result (λ e. IsAtFirstBad text.now e) }
{
    let mut rest = text;
    let mut reading = TraceReading {
        times: Vec::new(alloc),
        refused: None,
        count: 0,
        before: 0,
        line: 1,
        fall: None,
    };
    while !rest.is_empty() {
        let (line, after) = first_part(rest, Separator::LineFeed);
        reading.take(trace_line(line))?;
        rest = after;
    }
    Ok(reading)
}

/// What a line says, without a CR at its end and without the blanks around.
fn trace_line(line: &[u8]) -> TraceLine
    ensures { result ≡ trace_line line.now }
{
    word_line(trim_end(trim_start(without_return(line))))
}

fn word_line(word: &[u8]) -> TraceLine
    ensures { result ≡ word_line word.now }
{
    if word.is_empty() {
        return TraceLine::Nothing;
    }
    match numeral(word) {
        Some(time) if time <= u64::from(LONGEST_MS) => TraceLine::Time(time as u32),
        _ => TraceLine::Bad,
    }
}

fn trim_start(bytes: &[u8]) -> &[u8]
    ensures { result.now ≡ without_first_blanks bytes.now }
{
    let mut rest = bytes;
    while let Some((first, after)) = rest.split_first() {
        if !Separator::Blank.is(*first) {
            return rest;
        }
        rest = after;
    }
    rest
}

fn trim_end(bytes: &[u8]) -> &[u8]
    ensures { result.now ≡ without_last_blanks bytes.now }
{
    let mut rest = bytes;
    while let Some((last, before)) = rest.split_last() {
        if !Separator::Blank.is(*last) {
            return rest;
        }
        rest = before;
    }
    rest
}
