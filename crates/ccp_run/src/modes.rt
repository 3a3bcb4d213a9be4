//! The modes, and which call does the work of each.

mod acks;
mod audit;
mod campaign;
mod check;
mod common;
pub mod drive;
mod drive_text;
mod feed;
mod fold;
mod live;
mod rollout;
mod shared;
mod shared_acks;
mod shared_scene;
mod shared_series;
mod shared_timeline;
mod soak;
mod timeline;

ghost use Rattle.std.specs.Prelude.{◌≡◌, true, false};
ghost use Rattle.ccp_words.specs.Words.{HasWorkers};
ghost use Rattle.run_ending.specs.Streams.{stream_change};
ghost use Rattle.ccp_run.specs.Attempts.{IsAttempt, IsOutputOrRefusal};
ghost use Rattle.ccp_run.specs.Modes.{Task, is_read, is_stream, limit_in, task_of};
ghost use Rattle.ccp_run.specs.Run.{IsRun};

use crate::reading::read_bytes;
use acks::acks_output;
use audit::audit_output;
use campaign::campaign_output;
use ccp_base::{Gate, Sink, Source, Workers};
use ccp_words::{Alone, Asked, ToolMode};
use check::check_output;
use drive::run_drive;
use drive_text::read_drive;
use feed::run_feed;
use fold::fold_output;
use live::live_output;
use rollout::rollout_output;
use run_ending::{Limit, ModeOutput, Outcome, Stop, end};
use shared::shared_output;
use shared_acks::shared_acks_output;
use shared_timeline::shared_timeline_output;
use soak::soak_output;
use std::alloc::Global;
use std::sync::Wait;
use std::thread::Threads;
use timeline::timeline_output;

/// Does the work of a mode whose work is done by its caller alone.
pub fn run_alone<S: Source, K: Sink, E: Sink>(
    alloc: Global,
    mode: Alone,
    source: &mut S,
    sink: &mut K,
    errors: &mut E,
) -> Outcome
    ensures { IsRun (Task.Alone mode)
        (stream_change S.remaining S.faults source.old source.new)
        (stream_change K.written K.faults sink.old sink.new)
        (stream_change E.written E.faults errors.old errors.new) (K.is_finished sink.new) result }
{
    match mode {
        Alone::Feed => run_feed(alloc, source, sink, errors),
        Alone::Drive => run_drive(alloc, source, sink, errors),
        _ => {
            let made = make_alone(alloc, mode, source);
            end(alloc, made, sink, errors)
        }
    }
}

/// Does what is asked for.
pub fn run_asked<R: Threads + Wait + Sync, S: Source, K: Sink, E: Sink, G: Gate + Sync>(
    rt: &R,
    alloc: Global,
    asked: Asked,
    source: &mut S,
    sink: &mut K,
    errors: &mut E,
    gate: &G,
) -> Outcome
    requires { HasWorkers asked }
    ensures { IsRun (task_of asked)
        (stream_change S.remaining S.faults source.old source.new)
        (stream_change K.written K.faults sink.old sink.new)
        (stream_change E.written E.faults errors.old errors.new) (K.is_finished sink.new) result }
{
    match asked.mode {
        ToolMode::Alone(mode) => run_alone(alloc, mode, source, sink, errors),
        ToolMode::Driven(shown) => {
            let made = read_drive(alloc, shown, asked.wire, source);
            end(alloc, made, sink, errors)
        }
        _ => {
            let made = make_asked(rt, alloc, asked, source, gate);
            end(alloc, made, sink, errors)
        }
    }
}

/// Makes the output of a mode whose work is done by its caller alone, and that judges its input as a whole.
#[tactic(auto, using(crate::proofs::ReadLemmas::alone_unread, crate::proofs::ReadLemmas::alone_answered))]
fn make_alone<S: Source>(alloc: Global, mode: Alone, source: &mut S) -> Result<ModeOutput, Stop>
    requires { is_stream (Task.Alone mode) ≡ false }
    ensures { IsAttempt (Task.Alone mode) (stream_change S.remaining S.faults source.old source.new) result }
{
    let bytes = read_bytes(alloc, limit_alone(mode), source)?;
    alone_output(alloc, mode, bytes.as_slice())
}

/// How long an input of a mode may be whose work is done by its caller alone.
fn limit_alone(mode: Alone) -> Limit
    ensures { result ≡ limit_in (Task.Alone mode) }
{
    match mode {
        Alone::Check | Alone::Fold | Alone::Feed => Limit::Input,
        Alone::Audit | Alone::Drive => Limit::Audit,
    }
}

/// The output of such a mode for these bytes, or their refusal.
fn alone_output(alloc: Global, mode: Alone, bytes: &[u8]) -> Result<ModeOutput, Stop>
    requires { is_stream (Task.Alone mode) ≡ false }
    ensures { IsOutputOrRefusal (Task.Alone mode) bytes.now result }
{
    match mode {
        Alone::Check => check_output(alloc, bytes),
        Alone::Fold => fold_output(alloc, bytes),
        Alone::Audit => audit_output(alloc, bytes),
        Alone::Feed | Alone::Drive => unreachable!(),
    }
}

/// Makes the output of what is asked for, in a mode that judges its input as a whole.
fn make_asked<R: Threads + Wait + Sync, S: Source, G: Gate + Sync>(
    rt: &R,
    alloc: Global,
    asked: Asked,
    source: &mut S,
    gate: &G,
) -> Result<ModeOutput, Stop>
    requires workers { HasWorkers asked }
    requires whole { is_stream (task_of asked) ≡ false }
    ensures { IsAttempt (task_of asked) (stream_change S.remaining S.faults source.old source.new) result }
{
    match asked.mode {
        ToolMode::Alone(mode) => make_alone(alloc, mode, source),
        ToolMode::Soak => soak_output(rt, alloc, Workers::new(asked.workers), asked.number, gate),
        ToolMode::Driven(_) => unreachable!(),
        _ => make_read(rt, alloc, asked, source, gate),
    }
}

/// Makes the output of what is asked for, in a mode that reads an input of the shorter limit.
#[tactic(auto, using(crate::proofs::ReadLemmas::not_read, crate::proofs::ReadLemmas::answered))]
fn make_read<R: Threads + Wait + Sync, S: Source, G: Gate + Sync>(
    rt: &R,
    alloc: Global,
    asked: Asked,
    source: &mut S,
    gate: &G,
) -> Result<ModeOutput, Stop>
    requires workers { HasWorkers asked }
    requires whole { is_stream (task_of asked) ≡ false }
    requires reads { is_read (task_of asked) ≡ true }
    requires limit { limit_in (task_of asked) ≡ Limit.Input }
    ensures { IsAttempt (task_of asked) (stream_change S.remaining S.faults source.old source.new) result }
{
    let bytes = read_bytes(alloc, Limit::Input, source)?;
    asked_output(rt, alloc, asked, bytes.as_slice(), gate)
}

/// The output of what is asked for, for these bytes, or their refusal.
fn asked_output<R: Threads + Wait + Sync, G: Gate + Sync>(
    rt: &R,
    alloc: Global,
    asked: Asked,
    bytes: &[u8],
    gate: &G,
) -> Result<ModeOutput, Stop>
    requires workers { HasWorkers asked }
    requires whole { is_stream (task_of asked) ≡ false }
    requires reads { is_read (task_of asked) ≡ true }
    ensures { IsOutputOrRefusal (task_of asked) bytes.now result }
{
    let wire = asked.wire;
    let workers = Workers::new(asked.workers);
    let datapaths = Workers::new(asked.datapaths);
    let agents = Workers::new(asked.agents);
    match asked.mode {
        ToolMode::Alone(mode) => alone_output(alloc, mode, bytes),
        ToolMode::Live => live_output(rt, alloc, datapaths, agents, wire, bytes, gate),
        ToolMode::Campaign => campaign_output(rt, alloc, workers, wire, bytes, gate),
        ToolMode::Rollout => rollout_output(rt, alloc, datapaths, agents, bytes, gate),
        ToolMode::Shared => shared_output(rt, alloc, workers, bytes, gate),
        ToolMode::Timeline => timeline_output(rt, alloc, workers, wire, bytes, gate),
        ToolMode::Acks => acks_output(rt, alloc, workers, bytes, gate),
        ToolMode::SharedTimeline => {
            shared_timeline_output(rt, alloc, workers, wire, bytes, gate)
        }
        ToolMode::SharedAcks => shared_acks_output(rt, alloc, workers, bytes, gate),
        ToolMode::Soak | ToolMode::Driven(_) => unreachable!(),
    }
}
