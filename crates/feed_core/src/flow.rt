//! A flow of a datapath: the program that runs on it, and how far its acknowledgements have come.

ghost use Rattle.std.specs.Prelude.{◌≡◌, ◌+◌, ◌<◌, ◌^◌, true, None, IfOk, Some, IsOk, ◌↔◌, length, IfErr, OnOk, OnErr};
ghost use Rattle.fold_machine.specs.MachineState.{Fits};
ghost use Rattle.fold_machine.specs.Heard.{after_acknowledgement};
ghost use Rattle.ccp_base.specs.FieldReg.{first_bad_pair};
ghost use Rattle.ccp_base.specs.RunningEpochs.{epochs_in};
ghost use Rattle.feed_core.specs.Feed.{fresh_flow, changed_flow, updated_flow, counted_flow, flow_after};
ghost use Rattle.feed_core.specs.Feed.{epoch_heard, in_version, message_about};

use ccp_base::{Ack, Fields, NoMemory, RunningEpoch};
use ccp_messages::Message;
use fold_machine::{Acked, BadRegister, Machine, Steps};
use reg_code::Checked;
use reply_frames::Version;
use std::alloc::Global;
use std::marker::Brand;
use std::sync::ledger::{Blank, Ledger};

/// A flow: what a Create makes, and what later frames of its number change.
#[derive(Drop)]
pub struct Flow {
    /// The version of the Create.
    pub version: Version,
    pub machine: Machine,
    /// The epoch that runs; None before the first change.
    pub epoch: Option<RunningEpoch>,
    /// How many acknowledgements there were.
    pub count: u64,
    /// The time of the last one in microseconds, 0 before the first.
    pub last: u64,
}

impl Flow {
    /// A flow without a program, whose `Rate` is 0.
    pub fn new(alloc: Global, version: Version, cwnd: u64) -> Result<Flow, NoMemory>
        ensures { IfOk result (λ flow. flow ≡ fresh_flow version cwnd) }
    {
        Ok(Flow {
            version,
            machine: Machine::new(alloc, cwnd, 0)?,
            epoch: None,
            count: 0,
            last: 0,
        })
    }

    /// Starts a program with the values. After a refusal nothing has changed.
    pub fn change(
        &mut self,
        program: u32,
        code: &Checked,
        values: &Fields,
    ) -> Result<(), BadRegister>
        requires { epochs_in self.old.epoch < 2 ^ 32 }
        ensures ok { IsOk result ↔ (first_bad_pair (length code.now.code.controls) values.now ≡ None) }
        ensures refused { IfErr result (λ bad. first_bad_pair (length code.now.code.controls) values.now ≡ Some bad.0) }
        ensures changed { OnOk result (self.new ≡ changed_flow code.now.code program values.now self.old) }
        ensures fits { OnOk result (Fits self.new.machine code.now.code) }
        ensures unchanged { OnErr result (self.new ≡ self.old) }
    {
        self.machine.start(code, values, self.last)?;
        self.epoch = Some(RunningEpoch::after(self.epoch, program, self.count));
        Ok(())
    }

    /// Writes values of the program that was started. After a refusal nothing has changed.
    pub fn update(&mut self, code: &Checked, values: &Fields) -> Result<(), BadRegister>
        requires { Fits self.old.machine code.now.code }
        ensures ok { IsOk result ↔ (first_bad_pair (length code.now.code.controls) values.now ≡ None) }
        ensures refused { IfErr result (λ bad. first_bad_pair (length code.now.code.controls) values.now ≡ Some bad.0) }
        ensures updated { OnOk result (self.new ≡ updated_flow values.now self.old) }
        ensures unchanged { OnErr result (self.new ≡ self.old) }
    {
        self.machine.update(code, values)
    }

    /// Counts an acknowledgement that no program runs on.
    pub fn pass(&mut self, ack: &Ack)
        requires { self.old.count + 1 < 2 ^ 64 }
        ensures { self.new ≡ counted_flow ack.entry.now self.old }
    {
        self.count += 1;
        self.last = ack.now;
    }

    /// Runs the started program on an acknowledgement, with room for a report, and puts the message about it, if there
    /// is one, into `answer`, with this version.
    pub fn ack(
        &mut self,
        number: u32,
        code: &Checked,
        ack: &Ack,
        version: Version,
        answer: &mut Option<(Message, Version)>,
    )
        requires count { self.old.count + 1 < 2 ^ 64 }
        requires fits { Fits self.old.machine code.now.code }
        requires none { answer.old ≡ None }
        ensures after { self.new
            ≡ flow_after (after_acknowledgement code.now.code ack.entry.now true self.old.machine)
            ack.entry.now self.old }
        ensures message { answer.new ≡ in_version version
            (message_about (after_acknowledgement code.now.code ack.entry.now true self.old.machine)
            ack.entry.now number self.old) }
        ensures fits { Fits self.new.machine code.now.code }
    {
        let acked = run::<Brand>(&mut self.machine, code, ack, Blank::new(1));
        self.tell(number, ack, acked, version, answer);
        self.pass(ack);
    }

    /// Puts the message about an acknowledgement that was run and isn't counted yet, if there is one, into `answer`. A
    /// report ends its span.
    fn tell(
        &mut self,
        number: u32,
        ack: &Ack,
        acked: Acked,
        version: Version,
        answer: &mut Option<(Message, Version)>,
    )
        requires count { self.old.count + 1 < 2 ^ 64 }
        requires none { answer.old ≡ None }
        ensures message { answer.new
            ≡ in_version version (message_about (Some acked, self.old.machine) ack.entry.now number self.old) }
        ensures epoch { self.new
            ≡ record self.old { epoch = epoch_heard (Some acked) (self.old.count + 1) self.old.epoch } }
    {
        match acked {
            Acked::Reported | Acked::Faulted(_, _) => {
                self.put_message(number, ack, acked, version, answer)
            }
            Acked::Quiet | Acked::Held | Acked::Stopped => {}
        }
    }

    // Most acknowledgements have no message. A function of its own keeps a message's kilobyte out of their way.
    /// Puts the message about an acknowledgement, if there is one, into `answer`, with this version.
    #[inline(never)]
    fn put_message(
        &mut self,
        number: u32,
        ack: &Ack,
        acked: Acked,
        version: Version,
        answer: &mut Option<(Message, Version)>,
    )
        requires { self.old.count + 1 < 2 ^ 64 }
        ensures message { answer.new
            ≡ in_version version (message_about (Some acked, self.old.machine) ack.entry.now number self.old) }
        ensures epoch { self.new
            ≡ record self.old { epoch = epoch_heard (Some acked) (self.old.count + 1) self.old.epoch } }
    {
        *answer = in_version(version, self.message_about(number, ack, acked));
    }

    /// The message about an acknowledgement that was run and isn't counted yet.
    fn message_about(&mut self, number: u32, ack: &Ack, acked: Acked) -> Option<Message>
        requires { self.old.count + 1 < 2 ^ 64 }
        ensures message { result
            ≡ message_about (Some acked, self.old.machine) ack.entry.now number self.old }
        ensures epoch { self.new
            ≡ record self.old { epoch = epoch_heard (Some acked) (self.old.count + 1) self.old.epoch } }
    {
        let cwnd = self.machine.cwnd();
        match acked {
            Acked::Reported => {
                let rate = self.machine.rate();
                let fields = self.machine.reported();
                let epoch = self.epoch.as_mut()?;
                let report = epoch.report(number, self.count + 1, ack.now, cwnd, rate, &fields);
                Some(Message::Measure(report))
            }
            Acked::Faulted(kind, index) => {
                let epoch = self.epoch.as_ref()?;
                let notice = epoch.notice(number, self.count, ack.now, cwnd, kind, index);
                Some(Message::Fault(notice))
            }
            Acked::Quiet | Acked::Held | Acked::Stopped => None,
        }
    }
}

/// The message as an answer in a version, if there is one.
fn in_version(version: Version, answer: Option<Message>) -> Option<(Message, Version)>
    ensures { result ≡ in_version version answer }
{
    match answer {
        None => None,
        Some(message) => Some((message, version)),
    }
}

/// Runs an acknowledgement, with the ghost counter that `Machine::ack` takes; nothing reads it here.
fn run<L: Ledger>(machine: &mut Machine, code: &Checked, ack: &Ack, blank: Blank) -> Acked
    requires name { blank.name ≡ L.name }
    requires parts { blank.parts ≡ L.parts }
    requires some { 0 < blank.parts }
    requires fits { Fits machine.old code.now.code }
    ensures heard { (Some result, machine.new) ≡ after_acknowledgement code.now.code ack.entry.now true machine.old }
    ensures fits { Fits machine.new code.now.code }
{
    let mut steps = Steps::<L>::new(blank);
    machine.ack(code, ack, true, &mut steps)
}
