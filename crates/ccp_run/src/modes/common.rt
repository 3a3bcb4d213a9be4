//! The parts of outputs that several modes share: the programs' frames, the text of books, the agents of cases.
ghost use Rattle.std.specs.Prelude.{◌≡◌, ◌++◌, [], Ok, IfOk, length};
ghost use Rattle.std.specs.List.{All};
ghost use Rattle.campaign_report.specs.BookText.{books_text};
ghost use Rattle.ccp_run.specs.Campaign.{case_agents, frames_shown};
ghost use Rattle.ccp_run.specs.Live.{IsRightBook, books_written};

use agent_loop::Books;
use campaign_report::{Agents, live_text, wire_text};
use ccp_base::{Bytes, NoMemory};
use flow_core::Case;
use reg_compiler::Builts;
use run_ending::ModeOutput;
use std::alloc::Global;

/// The programs' Install frames if `wire` asks for them, else nothing.
pub fn frames(alloc: Global, wire: bool, programs: &Builts) -> Result<Bytes, NoMemory>
    ensures { IfOk result (λ text. text ≡ frames_shown wire programs.now) }
{
    if wire {
        wire_text(alloc, programs)
    } else {
        Ok(Bytes::new(alloc))
    }
}

/// The agents of cases, in order.
pub fn agents(alloc: Global, cases: &[Case]) -> Result<Agents, NoMemory>
    ensures { IfOk result (λ agents. agents ≡ case_agents cases.now) }
{
    let mut agents = Agents::new(alloc);
    let mut left = cases;
    while let Some((case, rest)) = left.split_first() {
        agents.push(case.agent)?;
        left = rest;
    }
    Ok(agents)
}

/// The text of the books, after the programs' frames if `wire` asks for them. If each book has the state after its word,
/// it is the live text of these words.
pub fn books_text(
    alloc: Global,
    wire: bool,
    books: &Books,
    programs: &Builts,
) -> Result<Bytes, NoMemory>
    ensures text { IfOk result (λ text. text ≡ frames_shown wire programs.now ++ books_text programs.now books.now) }
    ensures live { All (IsRightBook programs.now) books.now
        → IfOk result (λ text. text ≡ books_written wire programs.now books.now) }
{
    let mut text = frames(alloc, wire, programs)?;
    text.extend(live_text(alloc, books.as_slice(), programs)?.as_slice())?;
    Ok(text)
}

// The owner of programs has one exit by these two: the drop of the programs is proved here, and not in each mode.
/// The output of a text and the programs that it is of, or none if there was no memory for the text.
pub fn text_output(
    alloc: Global,
    text: Result<Bytes, NoMemory>,
    programs: Builts,
) -> Result<ModeOutput, NoMemory>
    ensures text { IfOk result (λ output. text ≡ Ok output.text) }
    ensures books { IfOk result (λ output. output.books ≡ []) }
    ensures programs { IfOk result (λ output. output.programs ≡ programs) }
    ensures ran { IfOk result (λ output. output.ran ≡ 0) }
{
    match text {
        Ok(text) => Ok(ModeOutput::with_programs(alloc, text, programs)),
        Err(error) => {
            drop(programs);
            Err(error)
        }
    }
}

/// The output of books and the programs that they are of, or none if there was no memory for the books or their text.
pub fn books_output(
    alloc: Global,
    wire: bool,
    books: Result<Books, NoMemory>,
    programs: Builts,
) -> Result<ModeOutput, NoMemory>
    ensures books { IfOk result (λ output. books ≡ Ok output.books) }
    ensures text { IfOk result (λ output. All (IsRightBook programs) output.books
        → output.text ≡ books_written wire programs output.books) }
    ensures programs { IfOk result (λ output. output.programs ≡ programs) }
    ensures ran { IfOk result (λ output. output.ran ≡ 0) }
{
    match books {
        Ok(books) => shown_books(alloc, wire, books, programs),
        Err(error) => {
            drop(programs);
            Err(error)
        }
    }
}

/// The output of these books.
fn shown_books(
    alloc: Global,
    wire: bool,
    books: Books,
    programs: Builts,
) -> Result<ModeOutput, NoMemory>
    ensures books { IfOk result (λ output. output.books ≡ books) }
    ensures text { IfOk result (λ output. All (IsRightBook programs) output.books
        → output.text ≡ books_written wire programs output.books) }
    ensures programs { IfOk result (λ output. output.programs ≡ programs) }
    ensures ran { IfOk result (λ output. output.ran ≡ 0) }
{
    match books_text(alloc, wire, &books, &programs) {
        Ok(text) => Ok(ModeOutput::with_books(text, books, programs)),
        Err(error) => {
            drop(books);
            drop(programs);
            Err(error)
        }
    }
}
