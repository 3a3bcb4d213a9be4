//! The case of a flow: its programs, agent and link, and its limits, with copies and equality.
ghost use Rattle.std.specs.Prelude.{◌≡◌, ◌≤◌, ◌↔◌, IsTrue, IfOk, length};
ghost use Rattle.ccp_base.specs.Limits.{most_acks, most_slots, most_lag};
ghost use Rattle.agent_core.specs.Agents.{course_of};
ghost use Rattle.flow_core.specs.Cases.{KeepsWithin, AreOne};

use agent_core::{Agent, same_role};
use ccp_base::{Name, NoMemory, Role, same_bytes};
use link_model::{Link, LinkCase};
use reg_code::{Checked, Code, Event, Instr, Packed, Start};
use std::alloc::Global;

/// A program as an agent's role has it: its number, where it keeps what the agent reads and writes, and its code.
#[derive(Drop)]
pub struct Coded {
    pub role: Role,
    pub code: Checked,
}

impl Coded {
    /// An equal program.
    fn copy(&self, alloc: Global) -> Result<Coded, NoMemory>
        ensures { IfOk result (λ coded. coded ≡ self.now) }
    {
        Ok(Coded {
            role: self.role,
            code: self.code.copy(alloc)?,
        })
    }

    /// Whether two programs are equal.
    fn same(&self, other: &Coded) -> bool
        ensures { IsTrue result ↔ (self.now ≡ other.now) }
    {
        if !same_role(&self.role, &other.role) {
            return false;
        }
        same_checked(&self.code, &other.code)
    }
}

// A function of its own: its proof turns the `==` into an equation, which `same_code` takes from the clause.
fn same_starts(these: &[Start], others: &[Start]) -> bool
    ensures { IsTrue result ↔ (these.now ≡ others.now) }
{
    these == others
}

// A function of its own: its proof turns the `==` into an equation, which `same_code` takes from the clause.
fn same_events(these: &[Event], others: &[Event]) -> bool
    ensures { IsTrue result ↔ (these.now ≡ others.now) }
{
    these == others
}

fn same_instrs(these: &[Packed], others: &[Packed]) -> bool
    ensures { IsTrue result ↔ (these.now ≡ others.now) }
{
    let mut left = these;
    let mut right = others;
    while let Some((first, rest)) = left.split_first() {
        let Some((other, after)) = right.split_first() else {
            return false;
        };
        if !same_instr(&first.instr(), &other.instr()) {
            return false;
        }
        left = rest;
        right = after;
    }
    right.is_empty()
}

// A function of its own: its proof turns the `==` into an equation, which `same_instrs` takes from the clause.
fn same_instr(this: &Instr, other: &Instr) -> bool
    ensures { IsTrue result ↔ (this.now ≡ other.now) }
{
    this == other
}

/// Whether two codes are equal.
fn same_code(this: &Code, other: &Code) -> bool
    ensures { IsTrue result ↔ (this.now ≡ other.now) }
{
    if !same_starts(this.reports(), other.reports()) {
        return false;
    }
    if !same_starts(this.controls(), other.controls()) {
        return false;
    }
    if !same_events(this.events(), other.events()) {
        return false;
    }
    same_instrs(this.instrs(), other.instrs())
}

// A function of its own: its proof shows that programs with one code are equal, which `same` takes from the clause.
fn same_checked(this: &Checked, other: &Checked) -> bool
    ensures { IsTrue result ↔ (this.now ≡ other.now) }
{
    same_code(&this.code, &other.code)
}

/// What a flow is: its programs and its agent, its link, how many acknowledgements come, how many reports may wait, and
/// for how many acknowledgements a campaign's answers are late.
#[derive(Drop)]
pub struct Case {
    pub flow: u32,
    pub name: Name,
    /// The program of slow start.
    pub ss: Coded,
    /// The program of congestion avoidance.
    pub ca: Coded,
    pub agent: Agent,
    pub link: LinkCase,
    /// 0 to 65,536.
    pub acks: u32,
    /// 1 to 64.
    pub slots: u32,
    /// 0 to 1,000.
    pub lag: u32,
    pub ghost ss_role: { (course_of agent).ss ≡ ss.role },
    pub ghost ca_role: { (course_of agent).ca ≡ ca.role },
    pub ghost ss_within: { KeepsWithin ss.role.look ss.code.code },
    pub ghost ca_within: { KeepsWithin ca.role.look ca.code.code },
    pub ghost one: { AreOne ss ca },
    pub ghost acks_within: { acks ≤ most_acks },
    pub ghost slots_within: { (1 ≤ slots) × (slots ≤ most_slots) },
    pub ghost lag_within: { lag ≤ most_lag },
}

impl Case {
    ghost use Rattle.std.specs.Prelude.{[]};
    ghost use Rattle.link_model.specs.Standing.{Stands};
    ghost use Rattle.flow_core.specs.Readings.{code_at};

    /// An equal case.
    pub fn copy(&self, alloc: Global) -> Result<Case, NoMemory>
        ensures { IfOk result (λ case. case ≡ self.now) }
    {
        let (ss, ca, link) = self.parts(alloc)?;
        Ok(Case {
            flow: self.flow,
            name: self.name,
            ss,
            ca,
            agent: self.agent,
            link,
            acks: self.acks,
            slots: self.slots,
            lag: self.lag,
        })
    }

    // A function of its own: it makes all that can fail, so `copy` builds the case at one exit.
    /// Equal programs, and an equal link.
    fn parts(&self, alloc: Global) -> Result<(Coded, Coded, LinkCase), NoMemory>
        ensures ss { IfOk result (λ parts. parts.0 ≡ self.now.ss) }
        ensures ca { IfOk result (λ parts. parts.1 ≡ self.now.ca) }
        ensures link { IfOk result (λ parts. parts.2 ≡ self.now.link) }
    {
        let ss = self.ss.copy(alloc)?;
        let ca = self.ca.copy(alloc)?;
        let link = self.link.copy(alloc)?;
        Ok((ss, ca, link))
    }

    /// Whether two cases are equal.
    pub fn same(&self, other: &Case) -> bool
        ensures { IsTrue result ↔ (self.now ≡ other.now) }
    {
        if self.flow != other.flow || !same_bytes(self.name.as_slice(), other.name.as_slice()) {
            return false;
        }
        if !self.ss.same(&other.ss) || !self.ca.same(&other.ca) {
            return false;
        }
        if !self.agent.same(&other.agent) || !self.link.same(&other.link) {
            return false;
        }
        if self.acks != other.acks || self.slots != other.slots {
            return false;
        }
        self.lag == other.lag
    }

    /// The case's link, to which no window was given yet.
    pub fn open_link(&self, alloc: Global) -> Result<Link, NoMemory>
        ensures case { IfOk result (λ link. link.case ≡ self.now.link) }
        ensures stands { IfOk result (λ link. Stands link []) }
        ensures calls { IfOk result (λ link. link.standing.calls ≡ 0) }
    {
        let link = self.link.copy(alloc)?;
        Link::new(alloc, link)
    }

    /// The code of the program with this number.
    pub(crate) fn code(&self, program: u32) -> &Checked
        ensures { result.now.code ≡ code_at self.now program }
    {
        if program == self.ss.role.number {
            &self.ss.code
        } else {
            &self.ca.code
        }
    }
}
