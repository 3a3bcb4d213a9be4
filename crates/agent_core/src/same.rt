//! Equality of agents, roles, reports and notices, part by part, by which tickets and cases are compared. What only
//! compares by `==` is a function of its own: the search turns its `==` into an equation, which the comparisons part by
//! part take from the clause.
ghost use Rattle.std.specs.Prelude.{◌≡◌, ◌↔◌, IsTrue};

use crate::agent::Agent;
use ccp_base::{Course, FaultKind, Look, Notice, Phase, Report, Role, Told, Values, same_number};
use cubic_agent::{Cubic, Growth};
use reno_agent::Reno;

fn same_look(this: &Look, other: &Look) -> bool
    ensures { IsTrue result ↔ (this.now ≡ other.now) }
{
    if !same_number(this.acked, other.acked) || !same_number(this.loss, other.loss) {
        return false;
    }
    if !same_number(this.timeout, other.timeout) || !same_number(this.rtt, other.rtt) {
        return false;
    }
    if !same_number(this.inflight, other.inflight) || !same_number(this.cap, other.cap) {
        return false;
    }
    if !same_number(this.mss, other.mss) {
        return false;
    }
    same_number(this.ecn, other.ecn)
}

/// Whether two roles are equal.
pub fn same_role(this: &Role, other: &Role) -> bool
    ensures { IsTrue result ↔ (this.now ≡ other.now) }
{
    if this.number != other.number {
        return false;
    }
    same_look(&this.look, &other.look)
}

fn same_mode(this: Phase, other: Phase) -> bool
    ensures { IsTrue result ↔ (this ≡ other) }
{
    this == other
}

fn same_course(this: &Course, other: &Course) -> bool
    ensures { IsTrue result ↔ (this.now ≡ other.now) }
{
    if !same_role(&this.ss, &other.ss) || !same_role(&this.ca, &other.ca) {
        return false;
    }
    if !same_mode(this.mode, other.mode) {
        return false;
    }
    this.epoch == other.epoch
}

fn same_numbers(these: &[u64], others: &[u64]) -> bool
    ensures { IsTrue result ↔ (these.now ≡ others.now) }
{
    these == others
}

fn same_values(this: &Values, other: &Values) -> bool
    ensures { IsTrue result ↔ (this.now ≡ other.now) }
{
    same_numbers(this.as_slice(), other.as_slice())
}

fn same_report(this: &Report, other: &Report) -> bool
    ensures { IsTrue result ↔ (this.entry.now ≡ other.entry.now) }
{
    if this.flow != other.flow || this.program != other.program || this.epoch != other.epoch {
        return false;
    }
    if this.first != other.first || this.end != other.end {
        return false;
    }
    if this.now != other.now || this.cwnd != other.cwnd || this.rate != other.rate {
        return false;
    }
    same_values(&this.fields, &other.fields)
}

fn same_kind(this: FaultKind, other: FaultKind) -> bool
    ensures { IsTrue result ↔ (this ≡ other) }
{
    this == other
}

fn same_notice(this: &Notice, other: &Notice) -> bool
    ensures { IsTrue result ↔ (this.entry.now ≡ other.entry.now) }
{
    if this.flow != other.flow || this.program != other.program || this.epoch != other.epoch {
        return false;
    }
    if this.at != other.at || this.index != other.index {
        return false;
    }
    if this.now != other.now || this.cwnd != other.cwnd {
        return false;
    }
    same_kind(this.kind, other.kind)
}

pub(crate) fn same_told(this: &Told, other: &Told) -> bool
    ensures { IsTrue result ↔ (this.now ≡ other.now) }
{
    match (this, other) {
        (Told::Report(report), Told::Report(known)) => same_report(report, known),
        (Told::Fault(notice), Told::Fault(known)) => same_notice(notice, known),
        _ => false,
    }
}

fn same_reno(this: &Reno, other: &Reno) -> bool
    ensures { IsTrue result ↔ (this.now ≡ other.now) }
{
    if this.mss() != other.mss() || !same_course(&this.course(), &other.course()) {
        return false;
    }
    if this.window() != other.window() || this.ssthresh() != other.ssthresh() {
        return false;
    }
    this.calm() == other.calm()
}

fn same_growth(this: &Growth, other: &Growth) -> bool
    ensures { IsTrue result ↔ (this.now ≡ other.now) }
{
    if this.window != other.window || this.w_max != other.w_max || this.w_prior != other.w_prior {
        return false;
    }
    if this.w_est != other.w_est || this.k != other.k {
        return false;
    }
    this.start == other.start
}

fn same_cubic(this: &Cubic, other: &Cubic) -> bool
    ensures { IsTrue result ↔ (this.now ≡ other.now) }
{
    if this.mss() != other.mss() || !same_course(&this.course(), &other.course()) {
        return false;
    }
    if this.ssthresh() != other.ssthresh() || this.calm() != other.calm() {
        return false;
    }
    same_growth(&this.growth(), &other.growth())
}

pub(crate) fn same_agent(this: &Agent, other: &Agent) -> bool
    ensures { IsTrue result ↔ (this.now ≡ other.now) }
{
    match (this, other) {
        (Agent::Reno(reno), Agent::Reno(known)) => same_reno(reno, known),
        (Agent::Cubic(cubic), Agent::Cubic(known)) => same_cubic(cubic, known),
        _ => false,
    }
}
