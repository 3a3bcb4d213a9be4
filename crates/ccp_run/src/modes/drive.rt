//! The mode `drive`, and what the modes share that read an input of it.

ghost use Rattle.std.specs.Prelude.{◌≡◌, ◌+◌, ◌≤◌, [], IfOk, IfErr, length};
ghost use Rattle.ccp_base.specs.Limits.{most_audit_bytes};
ghost use Rattle.ccp_words.specs.declared.mode.Alone.TheVariants as alone;
ghost use Rattle.scene_members.specs.declared.mode.SceneMode.TheVariants as modes;
ghost use Rattle.feed_core.specs.FeedEnds.{stream, AllowsAnswered};
ghost use Rattle.feed_core.specs.Answering.{after};
ghost use Rattle.driven_flow.specs.Driven.{codes_of};
ghost use Rattle.driven_flow.specs.Session.{opening};
ghost use Rattle.run_ending.specs.Streams.{stream_change};
ghost use Rattle.ccp_run.specs.DriveInputs.{driven_by};
ghost use Rattle.ccp_run.specs.DriveEnds.{AllowsDrive, IsDriveEnd, IsDrivenScene, IsFlowsEnd, IsOpened, IsSessionEnd};
ghost use Rattle.ccp_run.specs.DriveEnds.{ReportsDrive, front_stop};
ghost use Rattle.ccp_run.specs.Run.{IsRun};
ghost use Rattle.ccp_run.specs.Scenes.{StopsScene};
ghost use Rattle.ccp_run.specs.Modes.{Task};

use crate::drive_end::DriveEnd;
use crate::scene::scene;
use ccp_base::{Sequence, Sink, Source};
use driven_flow::{DrivenCase, Front, FrontFault, Programs, Session, driven_cases, read_front};
use feed_core::calls::answer_from;
use feed_core::{Duplex, FeedEnd, Pair, Rest, write_answer};
use reg_compiler::Builts;
use run_ending::{
    Limit, MEMORY_LINE, Outcome, READ_LINE, Refusal, Status, Stop, WRITE_LINE, end_without, refuse,
};
use scenario_json::{Scenario, SceneMode};
use std::alloc::Global;

/// The bytes of the longest input.
const LIMIT: usize = 67_108_864;

/// Answers the frames below a scenario as they come, and reports why if it stops before a whole input's end.
pub fn run_drive<S: Source, K: Sink, E: Sink>(
    alloc: Global,
    source: &mut S,
    sink: &mut K,
    errors: &mut E,
) -> Outcome
    ensures { IsRun (Task.Alone alone.Drive)
        (stream_change S.remaining S.faults source.old source.new)
        (stream_change K.written K.faults sink.old sink.new)
        (stream_change E.written E.faults errors.old errors.new) (K.is_finished sink.new) result }
{
    let ended = drive_pair(alloc, source, sink);
    end_drive(alloc, errors, ended)
}

/// Answers the frames of a source that may be read at any time, and writes to a sink.
fn drive_pair<S: Source, K: Sink>(alloc: Global, source: &mut S, sink: &mut K) -> DriveEnd
    ensures { IsDriveEnd
        (stream (S.remaining source.old) (S.remaining source.new) (S.faults source.old) (S.faults source.new))
        (stream (K.written sink.old) (K.written sink.new) (K.faults sink.old) (K.faults sink.new))
        (K.is_finished sink.new) result }
{
    let mut pair = Pair { source, sink };
    drive_frames(alloc, &mut pair)
}

/// Reports how the reading of an input ended if the input isn't whole.
fn end_drive<E: Sink>(alloc: Global, errors: &mut E, ended: DriveEnd) -> Outcome
    ensures { ReportsDrive (stream_change E.written E.faults errors.old errors.new) result ended }
{
    match ended {
        DriveEnd::Whole => Outcome::empty(alloc, Status::Done),
        DriveEnd::Refused(refusal) => refuse(alloc, refusal, errors),
        DriveEnd::ReadFailed => end_without(alloc, errors, Status::ReadFailed, READ_LINE),
        DriveEnd::WriteFailed => end_without(alloc, errors, Status::WriteFailed, WRITE_LINE),
        DriveEnd::NoMemory(error) => end_without(
            alloc,
            errors,
            Status::NoMemory(error),
            MEMORY_LINE,
        ),
    }
}

/// Reads a scenario, then answers the frames below it.
pub fn drive_frames<D: Duplex>(alloc: Global, duplex: &mut D) -> DriveEnd
    requires allowed { AllowsDrive D.remaining D.written D.is_finished D.Follows D.MayRead duplex.old }
    ensures follows { D.Follows duplex.old duplex.new }
    ensures reads { D.read_faults duplex.old ≤ D.read_faults duplex.new }
    ensures writes { D.write_faults duplex.old ≤ D.write_faults duplex.new }
    ensures end { IsDriveEnd
        (stream (D.remaining duplex.old) (D.remaining duplex.new)
        (D.read_faults duplex.old) (D.read_faults duplex.new))
        (stream (D.written duplex.old) (D.written duplex.new)
        (D.write_faults duplex.old) (D.write_faults duplex.new))
        (D.is_finished duplex.new) result }
{
    let mut rest = Rest::new();
    match open_drive(alloc, duplex, &mut rest) {
        Ok(opened) => DriveEnd::from(drive_flows(alloc, opened, &mut rest, duplex)),
        Err(stop) => DriveEnd::from(stop),
    }
}

/// What is known of an input once its scenario was read.
#[derive(Drop)]
pub struct Opened {
    pub programs: Builts,
    pub cases: Sequence<DrivenCase>,
    /// The place in the input where the frames begin.
    pub place: usize,
}

/// Reads the scenario that an input begins with, up to the line `---`. The bytes of the last piece after that line stay
/// in the rest.
pub fn open_drive<D: Duplex>(alloc: Global, duplex: &mut D, rest: &mut Rest) -> Result<Opened, Stop>
    requires empty { rest.old ≡ [] }
    requires allowed { AllowsDrive D.remaining D.written D.is_finished D.Follows D.MayRead duplex.old }
    ensures follows { D.Follows duplex.old duplex.new }
    ensures written { D.written duplex.new ≡ D.written duplex.old }
    ensures write_faults { D.write_faults duplex.new ≡ D.write_faults duplex.old }
    ensures finished { D.is_finished duplex.old → D.is_finished duplex.new }
    ensures reads { D.read_faults duplex.old ≤ D.read_faults duplex.new }
    ensures opened { IsOpened
        (stream (D.remaining duplex.old) (D.remaining duplex.new)
        (D.read_faults duplex.old) (D.read_faults duplex.new)) rest.new result }
{
    match read_front(alloc, duplex, rest) {
        Ok(front) => driven_scene(alloc, front),
        Err(fault) => Err(front_stop(fault)),
    }
}

/// The stop that a fault of the text before the line `---` is. Both types are of other crates, so it can't be a `From`.
fn front_stop(fault: FrontFault) -> Stop
    ensures { result ≡ front_stop fault }
{
    match fault {
        FrontFault::TooLong => Stop::Refused(Refusal::TooLong(Limit::Input)),
        FrontFault::NoSeparator => Stop::Refused(Refusal::NoSeparator),
        FrontFault::ReadFailed => Stop::ReadFailed,
        FrontFault::NoMemory(error) => Stop::NoMemory(error),
    }
}

/// The programs and the driven cases of the scenario before the line `---`.
fn driven_scene(alloc: Global, front: Front) -> Result<Opened, Stop>
    ensures opened { IfOk result (IsDrivenScene front.text front.eaten) }
    ensures err { IfErr result (StopsScene modes.Driven front.text) }
{
    let Scenario {
        programs,
        names,
        cases,
    } = scene(alloc, front.text.as_slice(), SceneMode::Driven)?;
    drop(names);
    match driven_cases(alloc, cases.as_slice()) {
        Ok(driven) => {
            drop(cases);
            Ok(Opened {
                programs,
                cases: driven,
                place: front.eaten,
            })
        }
        Err(error) => {
            drop(cases);
            drop(programs);
            Err(Stop::NoMemory(error))
        }
    }
}

/// Answers the frames of a scenario's flows.
fn drive_flows<D: Duplex>(alloc: Global, opened: Opened, rest: &mut Rest, duplex: &mut D) -> FeedEnd
    requires within { opened.place + length rest.old ≤ most_audit_bytes }
    requires allowed { AllowsAnswered
        (after rest.old (driven_by (opening (codes_of opened.programs) opened.cases) opened.place))
        D.remaining D.written D.is_finished D.Follows D.MayRead duplex.old }
    ensures follows { D.Follows duplex.old duplex.new }
    ensures reads { D.read_faults duplex.old ≤ D.read_faults duplex.new }
    ensures writes { D.write_faults duplex.old ≤ D.write_faults duplex.new }
    ensures end { IsFlowsEnd rest.old opened.place (opening (codes_of opened.programs) opened.cases)
        (stream (D.remaining duplex.old) (D.remaining duplex.new)
        (D.read_faults duplex.old) (D.read_faults duplex.new))
        (stream (D.written duplex.old) (D.written duplex.new)
        (D.write_faults duplex.old) (D.write_faults duplex.new))
        (D.is_finished duplex.new) result }
{
    let Opened {
        programs,
        cases,
        place,
    } = opened;
    let coded = Programs::new(programs.as_slice());
    let mut session = Session::begin(alloc, &coded, cases);
    let end = drive_session(alloc, &mut session, rest, place, duplex);
    drop(session);
    drop(programs);
    end
}

/// Writes the first frame of a session, then answers the frames that begin at a place of the input.
pub fn drive_session<D: Duplex>(
    alloc: Global,
    session: &mut Session,
    rest: &mut Rest,
    place: usize,
    duplex: &mut D,
) -> FeedEnd
    requires within { place + length rest.old ≤ most_audit_bytes }
    requires allowed { AllowsAnswered (after rest.old (driven_by session.old place))
        D.remaining D.written D.is_finished D.Follows D.MayRead duplex.old }
    ensures follows { D.Follows duplex.old duplex.new }
    ensures reads { D.read_faults duplex.old ≤ D.read_faults duplex.new }
    ensures writes { D.write_faults duplex.old ≤ D.write_faults duplex.new }
    ensures end { IsSessionEnd rest.old place session.old session.new
        (stream (D.remaining duplex.old) (D.remaining duplex.new)
        (D.read_faults duplex.old) (D.read_faults duplex.new))
        (stream (D.written duplex.old) (D.written duplex.new)
        (D.write_faults duplex.old) (D.write_faults duplex.new))
        (D.is_finished duplex.new) result }
{
    match write_answer(duplex, &session.first_frame()) {
        Ok(()) => answer_from(alloc, session, rest, place, LIMIT, duplex),
        Err(_) => FeedEnd::WriteFailed,
    }
}
