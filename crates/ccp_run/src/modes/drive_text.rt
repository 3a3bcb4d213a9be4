//! The modes `drive-table`, `drive-timeline` and `drive-acks`: texts of the flows that an agent outside has driven.

ghost use Rattle.std.specs.Prelude.{◌≡◌, ◌+◌, ◌≤◌, ◌++◌, None, IfOk, OnOk, length, map};
ghost use Rattle.ccp_base.specs.Limits.{most_audit_bytes, most_cases};
ghost use Rattle.campaign_report.specs.AcksText.{own_acks_text, own_flow_text};
ghost use Rattle.feed_core.specs.FeedEnds.{stream};
ghost use Rattle.ccp_run.specs.Drive.{drive_text, flow_acks, flow_names, flow_part, flow_parts, flow_row};
ghost use Rattle.ccp_run.specs.DriveTexts.{acks_from, change, AreOf, IsHeardOut, IsOf, IsStreamAttempt, IsTextMade};
ghost use Rattle.ccp_run.specs.Modes.{Task};

use crate::drive_end::DriveEnd;
use crate::modes::common::frames;
use crate::modes::drive::{Opened, drive_session, open_drive};
use crate::unheard::Unheard;
use campaign_core::{Row, Rows};
use campaign_report::{own_table_text, put_own_acks};
use ccp_base::{Bytes, Names, NoMemory, Source};
use ccp_words::DriveText;
use driven_flow::{DrivenFlow, Programs, Session, put_flow_part};
use feed_core::Rest;
use reg_compiler::Builts;
use run_ending::{ModeOutput, Stop};
use std::alloc::Global;

/// Reads a scenario and the frames below it, and makes a text of the flows that the frames drove.
pub fn read_drive<S: Source>(
    alloc: Global,
    shown: DriveText,
    wire: bool,
    source: &mut S,
) -> Result<ModeOutput, Stop>
    ensures { IsStreamAttempt (Task.Driven shown wire)
        (change (S.remaining source.old) (S.remaining source.new) (S.faults source.old) (S.faults source.new)) result }
{
    let mut unheard = Unheard { source };
    drive_output(alloc, shown, wire, &mut unheard)
}

/// The output for an input whose answers nobody hears.
fn drive_output<S: Source>(
    alloc: Global,
    shown: DriveText,
    wire: bool,
    unheard: &mut Unheard<S>,
) -> Result<ModeOutput, Stop>
    ensures follows { unheard.new.source.ghost_name ≡ unheard.old.source.ghost_name }
    ensures attempts { IsStreamAttempt (Task.Driven shown wire)
        (change (S.remaining unheard.old.source.now) (S.remaining unheard.new.source.now)
        (S.faults unheard.old.source.now) (S.faults unheard.new.source.now)) result }
{
    let mut rest = Rest::new();
    let opened = open_drive(alloc, unheard, &mut rest)?;
    made_of(alloc, shown, wire, opened, &mut rest, unheard)
}

/// The output for the frames of a scenario's flows.
fn made_of<S: Source>(
    alloc: Global,
    shown: DriveText,
    wire: bool,
    opened: Opened,
    rest: &mut Rest,
    unheard: &mut Unheard<S>,
) -> Result<ModeOutput, Stop>
    requires within { opened.place + length rest.old ≤ most_audit_bytes }
    requires few { length opened.cases ≤ most_cases }
    ensures follows { unheard.new.source.ghost_name ≡ unheard.old.source.ghost_name }
    ensures reads { S.faults unheard.old.source.now ≤ S.faults unheard.new.source.now }
    ensures made { IsTextMade shown wire rest.old opened
        (stream (S.remaining unheard.old.source.now) (S.remaining unheard.new.source.now)
        (S.faults unheard.old.source.now) (S.faults unheard.new.source.now))
        (stream None None 0 0) result }
{
    let Opened {
        programs,
        cases,
        place,
    } = opened;
    let coded = Programs::new(programs.as_slice());
    let mut session = Session::begin(alloc, &coded, cases);
    match hear_out(alloc, &mut session, rest, place, unheard) {
        Ok(()) => {
            let text = flows_text(alloc, shown, wire, &programs, session.ended());
            drop(session);
            match text {
                Ok(text) => Ok(ModeOutput::with_programs(alloc, text, programs)),
                Err(error) => {
                    drop(programs);
                    Err(Stop::NoMemory(error))
                }
            }
        }
        Err(stop) => {
            drop(session);
            drop(programs);
            Err(stop)
        }
    }
}

/// Answers the frames of a session to their end, where nobody hears the answers.
fn hear_out<S: Source>(
    alloc: Global,
    session: &mut Session,
    rest: &mut Rest,
    place: usize,
    unheard: &mut Unheard<S>,
) -> Result<(), Stop>
    requires within { place + length rest.old ≤ most_audit_bytes }
    ensures follows { unheard.new.source.ghost_name ≡ unheard.old.source.ghost_name }
    ensures reads { S.faults unheard.old.source.now ≤ S.faults unheard.new.source.now }
    ensures heard { IsHeardOut rest.old place session.old session.new
        (stream (S.remaining unheard.old.source.now) (S.remaining unheard.new.source.now)
        (S.faults unheard.old.source.now) (S.faults unheard.new.source.now))
        (stream None None 0 0) result }
{
    match DriveEnd::from(drive_session(alloc, session, rest, place, unheard)) {
        DriveEnd::Whole => Ok(()),
        DriveEnd::Refused(refusal) => Err(Stop::Refused(refusal)),
        DriveEnd::ReadFailed => Err(Stop::ReadFailed),
        DriveEnd::WriteFailed => unreachable!(),
        DriveEnd::NoMemory(error) => Err(Stop::NoMemory(error)),
    }
}

/// A text of flows that have these programs, at most 1,024.
fn flows_text(
    alloc: Global,
    shown: DriveText,
    wire: bool,
    programs: &Builts,
    flows: &[DrivenFlow],
) -> Result<Bytes, NoMemory>
    requires few { length flows.now ≤ most_cases }
    requires own { AreOf programs.now flows.now }
    ensures { IfOk result (λ text. text ≡ drive_text shown wire programs.now flows.now) }
{
    match shown {
        DriveText::Table => rows_text(alloc, wire, programs, flows),
        DriveText::Timeline => parts_text(alloc, wire, programs, flows),
        DriveText::Acks => acks_text(alloc, programs, flows),
    }
}

/// The table of the flows' rows, after the programs' frames if `wire` asks for them.
fn rows_text(
    alloc: Global,
    wire: bool,
    programs: &Builts,
    flows: &[DrivenFlow],
) -> Result<Bytes, NoMemory>
    requires few { length flows.now ≤ most_cases }
    requires own { AreOf programs.now flows.now }
    ensures { IfOk result (λ text. text ≡ drive_text DriveText.Table wire programs.now flows.now) }
{
    let mut text = frames(alloc, wire, programs)?;
    let names = flow_names(alloc, flows)?;
    let rows = flow_rows(alloc, programs, flows)?;
    text.extend(own_table_text(alloc, &names, &rows)?.as_slice())?;
    Ok(text)
}

/// The names of the flows' cases, in order.
fn flow_names(alloc: Global, flows: &[DrivenFlow]) -> Result<Names, NoMemory>
    ensures names { IfOk result (λ names. names ≡ flow_names flows.now) }
{
    let mut names = Names::new(alloc);
    for flow in flows {
        names.push(flow.case().name)?;
    }
    Ok(names)
}

/// The rows of the flows, in order.
fn flow_rows(alloc: Global, programs: &Builts, flows: &[DrivenFlow]) -> Result<Rows, NoMemory>
    requires own { AreOf programs.now flows.now }
    ensures rows { IfOk result (λ rows. rows ≡ map (flow_row programs.now) flows.now) }
{
    let mut rows = Rows::new(alloc);
    for flow in flows {
        rows.push(flow_row(programs, flow))?;
    }
    Ok(rows)
}

/// The row of a flow that has these programs.
fn flow_row(programs: &Builts, flow: &DrivenFlow) -> Row
    requires own { IsOf programs.now flow.now }
    ensures { result ≡ flow_row programs.now flow.now }
{
    let _ = programs;
    flow.lift_law();
    flow.row()
}

/// The flows' parts of the live text, after the programs' frames if `wire` asks for them.
fn parts_text(
    alloc: Global,
    wire: bool,
    programs: &Builts,
    flows: &[DrivenFlow],
) -> Result<Bytes, NoMemory>
    requires own { AreOf programs.now flows.now }
    ensures { IfOk result (λ text. text ≡ drive_text DriveText.Timeline wire programs.now flows.now) }
{
    let mut text = frames(alloc, wire, programs)?;
    put_parts(&mut text, programs, flows)?;
    Ok(text)
}

/// Appends the flows' parts of the live text, in order.
fn put_parts(text: &mut Bytes, programs: &Builts, flows: &[DrivenFlow]) -> Result<(), NoMemory>
    requires own { AreOf programs.now flows.now }
    ensures { OnOk result (text.new ≡ text.old ++ flow_parts programs.now flows.now) }
{
    for flow in flows {
        put_flow_part(text, programs.as_slice(), flow)?;
    }
    Ok(())
}

/// The lines of the flows' acknowledgements.
fn acks_text(alloc: Global, programs: &Builts, flows: &[DrivenFlow]) -> Result<Bytes, NoMemory>
    requires few { length flows.now ≤ most_cases }
    requires own { AreOf programs.now flows.now }
    ensures { IfOk result (λ text.
        text ≡ own_acks_text (flow_names flows.now) (map (flow_acks programs.now) flows.now)) }
{
    let mut text = Bytes::new(alloc);
    put_acks(&mut text, programs, flows)?;
    Ok(text)
}

/// Appends the lines of the acknowledgements of flows, which are numbered from 0.
fn put_acks(text: &mut Bytes, programs: &Builts, flows: &[DrivenFlow]) -> Result<(), NoMemory>
    requires few { length flows.now ≤ most_cases }
    requires own { AreOf programs.now flows.now }
    ensures { OnOk result (text.new ≡ text.old ++ acks_from 0 programs.now flows.now) }
{
    let mut number = 0;
    for flow in flows {
        put_flow_acks(text, number, programs, flow)?;
        number += 1;
    }
    Ok(())
}

/// Appends the lines of the acknowledgements of a flow with this number.
fn put_flow_acks(
    text: &mut Bytes,
    number: u32,
    programs: &Builts,
    flow: &DrivenFlow,
) -> Result<(), NoMemory>
    requires own { IsOf programs.now flow.now }
    ensures { OnOk result (text.new
        ≡ text.old ++ own_flow_text number flow.now.case.name (flow_acks programs.now flow.now)) }
{
    let _ = programs;
    flow.lift_law();
    put_own_acks(text, number, &flow.case().name, flow.acks())
}
