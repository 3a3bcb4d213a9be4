//! What installers do.
ghost use Rattle.std.specs.Prelude.{◌≡◌, ◌≤◌, Some, None, IfOk};
ghost use Rattle.ccp_base.specs.Limits.{most_steps};
ghost use Rattle.worker_desk.specs.Serving.{flows_of_worker};
ghost use Rattle.worker_desk.specs.Equipping.{tasks, Equips};

use crate::kept::keep;
use ccp_base::Point;
use std::alloc::Global;
use std::process::Abort;
use std::test::Fail;
use worker_desk::{Event, InstallDesk, LockDesk, run_installer};

/// A flow's number, and how many events there were when it was given.
#[derive(Clone, Copy)]
struct FlowNumber {
    flow: u32,
    events: usize,
}

/// A text of a flow's step, and how many events there were when the flow's number was given.
#[derive(Drop)]
struct StepText {
    flow: u32,
    step: u32,
    events: usize,
}

/// A desk whose answers come from a list. Texts are built from the number of the flow, and an entry is the number of
/// its step.
#[derive(Drop)]
struct StepDesk<'a, R: Abort> {
    rt: &'a R,
    flows: u32,
    /// The answers that are left, the next one last.
    answers: Vec<bool>,
    events: Vec<Event>,
    held: Option<u32>,
    ghost few: { flows ≤ 64 },
}

impl<'a, R: Abort> LockDesk for StepDesk<'a, R> {
    ghost use Rattle.std.specs.Prelude.{Some};

    type Guard = u32;

    ghost log = { λ d. Some d.events.items };

    ghost held = { λ d. d.held };

    ghost flows = { λ d. d.flows };

    fn flow_count(&self) -> u32 {
        self.flows
    }

    fn lock(&mut self, flow: u32) {
        keep(self.rt, &mut self.events, Event::Locked(flow));
        self.held = Some(flow);
    }

    fn unlock(&mut self, flow: u32) -> u32 {
        keep(self.rt, &mut self.events, Event::Unlocked(flow));
        self.held = None;
        flow
    }

    fn pass(&mut self, worker: u32, point: Point, flow: u32) {
        keep(
            self.rt,
            &mut self.events,
            Event::Passed(worker, point, flow),
        );
    }
}

impl<'a, R: Abort> InstallDesk for StepDesk<'a, R> {
    ghost use Rattle.std.specs.Prelude.{Some};

    type Source = FlowNumber;

    type Text = StepText;

    type Entry = u32;

    ghost flow_from = { λ source. source.flow };

    ghost given_at = { λ source. Some source.events };

    ghost task_of = { λ text. record { flow = text.flow; step = text.step } };

    ghost source_at = { λ text. Some text.events };

    ghost step_of = { λ step. step };

    fn source(&self, flow: u32) -> FlowNumber {
        FlowNumber {
            flow,
            events: self.events.len(),
        }
    }

    fn build(source: FlowNumber, step: u32) -> StepText {
        StepText {
            flow: source.flow,
            step,
            events: source.events,
        }
    }

    fn take_entry(&mut self, text: StepText) -> Option<u32> {
        let StepText { flow, step, .. } = text;
        if next(&mut self.answers) {
            keep(self.rt, &mut self.events, Event::Built(flow, step, true));
            return Some(step);
        }
        keep(self.rt, &mut self.events, Event::Built(flow, step, false));
        None
    }

    fn install(&mut self, flow: u32, entry: u32) -> bool {
        let is_next = next(&mut self.answers);
        keep(
            self.rt,
            &mut self.events,
            Event::Installed(flow, entry, is_next),
        );
        is_next
    }

    fn change(&mut self, flow: u32) -> bool {
        let changed = next(&mut self.answers);
        keep(self.rt, &mut self.events, Event::Changed(flow, changed));
        changed
    }
}

/// The next answer; no if none is left.
fn next(answers: &mut Vec<bool>) -> bool {
    match answers.pop() {
        Some(answer) => answer,
        None => false,
    }
}

/// A desk of three flows with these answers, of which the last one comes first.
fn desk<'a, R: Abort>(rt: &'a R, alloc: Global, answers: &[bool]) -> Result<StepDesk<'a, R>, Fail>
    ensures { IfOk result (λ desk. desk.held ≡ None) }
{
    Ok(StepDesk {
        rt,
        flows: 3,
        answers: answers.to_vec(alloc)?,
        events: Vec::new(alloc),
        held: None,
    })
}

/// Does an installer's work. What was done is the definition's for the installer's flows.
fn work<R: Abort>(desk: &mut StepDesk<R>, worker: u32, first: u32, workers: u32)
    requires workers { 1 ≤ workers }
    requires free { desk.old.held ≡ None }
    ensures { Equips worker (tasks (flows_of_worker first workers desk.old.flows) most_steps)
        (Some desk.old.events.items) (Some desk.new.events.items) }
{
    drop(run_installer(desk, worker, first, workers));
}

/// What worker 3, the first of two installers, does at first: flow 0 is changed to its step 0, flow 2 has nothing to
/// change to, and step 1 of flow 0 comes late.
const STEPS: [Event; 21] = [
    Event::Built(0, 0, true),
    Event::Locked(0),
    Event::Installed(0, 0, true),
    Event::Unlocked(0),
    Event::Passed(3, Point::AfterTake, 0),
    Event::Locked(0),
    Event::Changed(0, true),
    Event::Unlocked(0),
    Event::Passed(3, Point::AfterSettle, 0),
    Event::Built(2, 0, true),
    Event::Locked(2),
    Event::Installed(2, 0, true),
    Event::Unlocked(2),
    Event::Passed(3, Point::AfterTake, 2),
    Event::Locked(2),
    Event::Changed(2, false),
    Event::Unlocked(2),
    Event::Built(0, 1, true),
    Event::Locked(0),
    Event::Installed(0, 1, false),
    Event::Unlocked(0),
];

/// The end: no flow has a step 1 of flow 2, or a later one.
fn is_end(events: &[Event]) -> bool {
    events.starts_with(&[Event::Built(2, 1, false), Event::Built(0, 2, false)])
        && events.ends_with(&[Event::Built(0, 15, false), Event::Built(2, 15, false)])
        && events.len() == 29
}

#[test]
fn an_installer_goes_through_the_steps(rt: HostRuntime) -> Result<(), Fail> {
    let answers = [false, true, false, true, true, true, true, true];
    let mut desk = desk(&rt, rt.alloc(), &answers)?;
    work(&mut desk, 3, 0, 2);
    let events = desk.events.as_slice();
    assert!(rt; events.starts_with(&STEPS));
    assert!(rt; is_end(&events[STEPS.len().min(events.len())..]));
    Ok(())
}
