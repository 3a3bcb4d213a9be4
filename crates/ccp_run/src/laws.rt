//! The laws of the modes: bytes are an input or have one first refusal, and how modes' outputs agree.
ghost use Rattle.ccp_run.specs.DriveLaws.{DriveEndsForGood, DriveWritesFronts};
ghost use Rattle.ccp_run.specs.Settled.{AreInputsSettled};
ghost use Rattle.ccp_run.specs.SharedLaws.{TellsSharedRows};
ghost use Rattle.ccp_run.specs.TextLaws.{AuditsTimelines, ReadsAcksBack};

/// The law of inputs: of each mode, bytes are an input or have one first refusal, and not both.
pub fn input_law()
    ensures { AreInputsSettled }
{}

/// A law: `audit` of a scenario and its timeline says yes.
pub fn timeline_audited_law()
    ensures { AuditsTimelines }
{}

/// A law: `fold` reads the lines of acknowledgements as these acknowledgements.
pub fn acks_read_back_law()
    ensures { ReadsAcksBack }
{}

/// A law: the rows that `shared` has of the flows on a link agree, in order, with the lines of their parts in
/// `shared-timeline`.
pub fn shared_timeline_rows_law()
    ensures { TellsSharedRows }
{}

/// A law: what `drive` writes for the first bytes of an input is a front of what it writes for the whole; and what
/// follows a finished run leaves the flows as they are, and is answered by the Refused of its frames alone.
pub fn drive_law()
    ensures fronts { DriveWritesFronts }
    ensures ended { DriveEndsForGood }
{}
