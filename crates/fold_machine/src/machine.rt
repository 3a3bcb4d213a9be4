//! The machine: it runs accepted code on each acknowledgement, and hands out its further slots.
ghost use Rattle.std.specs.Prelude.{◌≡◌, ◌+◌, ◌≤◌, ◌↔◌, Some, None, IsTrue, IsOk, true, IfOk, IfErr, OnOk, OnErr, length};
ghost use Rattle.reg_code.specs.AcceptedCode.{sizes_of};
ghost use Rattle.ccp_base.specs.FieldReg.{first_bad_pair};
ghost use Rattle.ccp_base.specs.Limits.{most_slots};
ghost use Rattle.fold_machine.specs.MachineState.{fresh_machine, Fits};
ghost use Rattle.fold_machine.specs.Heard.{started_by, updated_by, after_acknowledgement, is_fault, count_after};

use crate::acked::{Acked, BadRegister};
use crate::kept::{declare, write_values};
use crate::places::{CWND, RATE, REPORTS};
use crate::steps::Steps;
use crate::store::Store;
use crate::work::work;
use crate::working_words::load_kept;
use ccp_base::{Ack, Fields, NoMemory, Values};
use reg_code::{Checked, Code, Sizes, places};
use slot_pool::{Full, Slot, Slots};
use std::alloc::Global;
use std::marker::Model;
use std::sync::ledger::Ledger;

/// The state of a running program: its registers and the last report, in one pool of slots of 160 words. The pool can
/// have further slots, which are the holder's. An acknowledgement runs on words beside it, so that a fault leaves the
/// registers as they were.
#[derive(Drop)]
pub struct Machine {
    pub(crate) store: Store,
    /// The words that acknowledgements run on. They have the kept registers.
    pub(crate) words: Vec<u64>,
    /// How many report fields and control variables the started program has.
    sizes: Sizes,
    /// How many fields the last report has.
    pub(crate) reported: u32,
    started: bool,
    stopped: bool,
    ran: u32,
}

impl Model for Machine {
    ghost use Rattle.fold_machine.specs.MachineState.{MachineState, machine_code};

    ghost Value = { MachineState };

    ghost coded = { machine_code };

    ghost use Rattle.fold_machine.specs.Whole.{machine_of, IsMachineWhole};

    ghost view = { λ m. machine_of m.store m.sizes m.reported m.started m.stopped m.ran };

    ghost invariant = { λ m. IsMachineWhole m.store m.words.items m.sizes m.reported };
}

impl Machine {
    /// A machine without a program and without further slots. `cwnd` is in bytes, `rate` in bytes a second.
    pub fn new(alloc: Global, cwnd: u64, rate: u64) -> Result<Machine, NoMemory>
        ensures { IfOk result (λ machine. machine ≡ fresh_machine cwnd rate 0) }
    {
        Machine::roomy(alloc, cwnd, rate, 0)
    }

    /// A machine without a program, with room for the largest one and with `slots` further slots.
    pub fn roomy(alloc: Global, cwnd: u64, rate: u64, slots: u32) -> Result<Machine, NoMemory>
        requires { slots ≤ most_slots }
        ensures { IfOk result (λ machine. machine ≡ fresh_machine cwnd rate slots) }
    {
        let mut store = Store::new(alloc, slots)?;
        store.set_register(CWND, cwnd);
        store.set_register(RATE, rate);
        let sizes = Sizes {
            reports: 0,
            controls: 0,
        };
        let mut words = vec![in alloc; 0u64; places::ALL]?;
        load_kept(&mut words, &store, sizes);
        Ok(Machine {
            store,
            words,
            sizes,
            reported: 0,
            started: false,
            stopped: false,
            ran: 0,
        })
    }

    /// Starts a program: each register gets its start value, and then the values are written in order. The window
    /// and the rate stay unless the values name them. `now` is the time of the flow's last acknowledgement in
    /// microseconds, 0 before the first, and becomes time zero. After a refusal nothing has changed.
    pub fn start(&mut self, code: &Checked, values: &Fields, now: u64) -> Result<(), BadRegister>
        ensures ok { IsOk result ↔ (first_bad_pair (length code.now.code.controls) values.now ≡ None) }
        ensures refused { IfErr result (λ bad. first_bad_pair (length code.now.code.controls) values.now ≡ Some bad.0) }
        ensures started { OnOk result (self.new ≡ started_by code.now.code values.now now self.old) }
        ensures fits { OnOk result (Fits self.new code.now.code) }
        ensures unchanged { OnErr result (self.new ≡ self.old) }
    {
        let code = code.code();
        if let Some(i) = values.first_bad(code.controls().len()) {
            return Err(BadRegister(i));
        }
        self.sizes = Sizes {
            reports: code.reports().len(),
            controls: code.controls().len(),
        };
        declare(&mut self.store, code, now);
        write_values(&mut self.store, self.sizes, values);
        load_kept(&mut self.words, &self.store, self.sizes);
        self.started = true;
        self.stopped = false;
        self.ran = 0;
        Ok(())
    }

    /// Whether a program was started and has as many registers as this code.
    pub fn fits(&self, code: &Checked) -> bool
        ensures { IsTrue result ↔ Fits self.now code.now.code }
    {
        self.started && has_sizes(code.code(), self.sizes)
    }

    /// Runs an acknowledgement through the code that was started. `room` says whether there is room for a report.
    /// `steps` counts the instructions that are run: at most as many as the code has.
    pub fn ack<L: Ledger>(
        &mut self,
        code: &Checked,
        ack: &Ack,
        room: bool,
        steps: &mut Steps<L>,
    ) -> Acked
        requires { Fits self.old code.now.code }
        ensures acked { Some result ≡ (after_acknowledgement code.now.code ack.entry.now room self.old).0 }
        ensures after { self.new ≡ (after_acknowledgement code.now.code ack.entry.now room self.old).1 }
        ensures stopped { (result ≡ Acked.Stopped) ↔ (self.old.is_stopped ≡ true) }
        ensures fits { Fits self.new code.now.code }
        ensures steps { steps.new ≡ steps.old + self.new.ran }
        ensures within { self.new.ran ≤ length code.now.code.instrs }
    {
        if self.stopped {
            self.ran = 0;
            return Acked::Stopped;
        }
        let mut acked = Acked::Quiet;
        let code = code.code();
        let ran = work(
            &mut self.store,
            &mut self.words,
            self.sizes,
            code,
            ack,
            room,
            &mut acked,
            steps,
        );
        self.ran = ran;
        if let Acked::Quiet = acked {
            return acked;
        }
        self.reported = count_after(acked, self.sizes.reports as u32, self.reported);
        self.stopped = is_fault(acked);
        acked
    }

    /// Writes values in order, and changes nothing else; a stopped program stays stopped. After a refusal nothing
    /// has changed.
    pub fn update(&mut self, code: &Checked, values: &Fields) -> Result<(), BadRegister>
        requires { Fits self.old code.now.code }
        ensures ok { IsOk result ↔ (first_bad_pair (length code.now.code.controls) values.now ≡ None) }
        ensures refused { IfErr result (λ bad. first_bad_pair (length code.now.code.controls) values.now ≡ Some bad.0) }
        ensures updated { OnOk result (self.new ≡ updated_by values.now self.old) }
        ensures fits { Fits self.new code.now.code }
        ensures unchanged { OnErr result (self.new ≡ self.old) }
    {
        if let Some(i) = values.first_bad(code.code().controls().len()) {
            return Err(BadRegister(i));
        }
        write_values(&mut self.store, self.sizes, values);
        load_kept(&mut self.words, &self.store, self.sizes);
        Ok(())
    }

    /// How many instructions the last acknowledgement since the last start ran, a faulting one included; 0 if there
    /// was none, or if the program was stopped before it.
    pub fn ran(&self) -> u32
        ensures { result ≡ self.now.ran }
    {
        self.ran
    }

    /// Whether a fault stopped the program since its last start.
    pub fn is_stopped(&self) -> bool
        ensures { result ≡ self.now.is_stopped }
    {
        self.stopped
    }

    /// The fields of the last report, in order of declaration; none before it.
    pub fn reported(&self) -> Values
        ensures { result ≡ self.now.report }
    {
        Values::from_slice(&self.store.report()[..self.reported as usize])
    }

    /// The report fields as they are now, in order of declaration.
    pub fn fields(&self) -> Values
        ensures { result ≡ self.now.kept.reports }
    {
        let first = REPORTS as usize;
        Values::from_slice(&self.store.registers()[first..first + self.sizes.reports])
    }

    /// The congestion window, in bytes.
    pub fn cwnd(&self) -> u64
        ensures { result ≡ self.now.kept.cwnd }
    {
        self.words[places::CWND]
    }

    /// The pacing rate, in bytes a second.
    pub fn rate(&self) -> u64
        ensures { result ≡ self.now.kept.rate }
    {
        self.words[places::RATE]
    }
}

impl Slots for Machine {
    ghost use Rattle.fold_machine.specs.MachineState.{MachineState, machine_numbers};

    ghost pool = { λ m. m.further };

    ghost rest = { λ m. machine_numbers m };

    fn take_slot(&mut self) -> Result<Slot, Full> {
        self.store.take_further()
    }

    fn give_slot(&mut self, slot: Slot) {
        self.store.give_further(slot);
    }

    fn slot(&self, slot: &Slot) -> &[u64] {
        self.store.further_words(slot)
    }

    fn set_slot(&mut self, slot: &Slot, at: u32, word: u64) {
        self.store.set_further(slot, at, word);
    }
}

/// Whether `sizes` are the code's.
fn has_sizes(code: &Code, sizes: Sizes) -> bool
    ensures { IsTrue result ↔ (sizes ≡ sizes_of code.now) }
{
    sizes.reports == code.reports().len() && sizes.controls == code.controls().len()
}

/// Whether an answer is a fault.
fn is_fault(acked: Acked) -> bool
    ensures { result ≡ is_fault acked }
{
    match acked {
        Acked::Faulted(..) => true,
        Acked::Quiet | Acked::Reported | Acked::Held | Acked::Stopped => false,
    }
}

/// How many fields the last report has after an answer, if a new one has `count` and the old one has `before`.
fn count_after(acked: Acked, count: u32, before: u32) -> u32
    ensures { result ≡ count_after acked count before }
{
    match acked {
        Acked::Reported => count,
        Acked::Quiet | Acked::Held | Acked::Faulted(..) | Acked::Stopped => before,
    }
}
