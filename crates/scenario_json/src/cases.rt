//! How a flow's case is put together from its plan and the scenario's programs, with a fresh agent.
ghost use Rattle.std.specs.Prelude.{◌≡◌, ◌≤◌, ◌<◌, ◌+◌, IfOk, Some, Ok, length, map, slice_get};
ghost use Rattle.std.specs.Option.{ForSome};
ghost use Rattle.std.specs.List.{All};
ghost use Rattle.std.specs.List.Sorted.{IsStrictlyIncreasing};
ghost use Rattle.ccp_base.specs.Limits.{most_mark};
ghost use Rattle.portus_core.specs.ProgramForm.{form_of};
ghost use Rattle.reg_compiler.specs.Simulation.{Simulates};
ghost use Rattle.agent_core.specs.Kinds.{agent_of, kind_of};
ghost use Rattle.flow_core.specs.Cases.{KeepsWithin, AreOne};
ghost use Rattle.scene_members.specs.Plans.{IsPlan, AreLinkNumbers, AreAgentNumbers};
ghost use Rattle.scene_core.specs.CasePlans.{plan_of, at_once};
ghost use Rattle.scenario_json.specs.Cases.{coded_of, coded_at, IsCoded};

use ccp_base::{NoMemory, Role, Sequence};
use flow_core::{Case, Coded};
use link_model::LinkCase;
use portus_build::calls::look;
use reg_compiler::Built;
use scene_members::{Plan, Programs};
use std::alloc::Global;

/// The program of this number, as an agent's role has it.
fn coded_program(alloc: Global, programs: &[(u32, Built)], number: u32) -> Result<Coded, NoMemory>
    requires { number < length programs.now }
    ensures coded { IfOk result (λ c. coded_at programs.now number ≡ Some c) }
    ensures number { IfOk result (λ c. c.role.number ≡ number) }
    ensures within { IfOk result (λ c. KeepsWithin c.role.look c.code.code) }
{
    let (_, built) = &programs[number as usize];
    Ok(Coded {
        role: Role {
            number,
            look: look(&built.program),
        },
        code: built.code.copy(alloc)?,
    })
}

/// The programs of a case: that of slow start, and that of congestion avoidance.
#[tactic(auto, using(crate::proofs::CaseLemmas::one_program))]
fn coded_programs(
    alloc: Global,
    programs: &[(u32, Built)],
    numbers: Programs,
) -> Result<(Coded, Coded), NoMemory>
    requires ss { numbers.ss < length programs.now }
    requires ca { numbers.ca < length programs.now }
    ensures ss { IfOk result (λ both. coded_at programs.now numbers.ss ≡ Some both.0) }
    ensures ca { IfOk result (λ both. coded_at programs.now numbers.ca ≡ Some both.1) }
    ensures ss_number { IfOk result (λ both. both.0.role.number ≡ numbers.ss) }
    ensures ca_number { IfOk result (λ both. both.1.role.number ≡ numbers.ca) }
    ensures ss_within { IfOk result (λ both. KeepsWithin both.0.role.look both.0.code.code) }
    ensures ca_within { IfOk result (λ both. KeepsWithin both.1.role.look both.1.code.code) }
    ensures one { IfOk result (λ both. AreOne both.0 both.1) }
{
    let ss = coded_program(alloc, programs, numbers.ss)?;
    match coded_program(alloc, programs, numbers.ca) {
        Ok(ca) => Ok((ss, ca)),
        Err(error) => {
            drop(ss);
            Err(error)
        }
    }
}

/// The case of a flow whose programs these are.
fn case_of(flow: u32, plan: Plan, ss: Coded, ca: Coded) -> Case
    requires link_numbers { AreLinkNumbers plan.link_numbers }
    requires agent_numbers { AreAgentNumbers plan.agent_numbers }
    requires rise { IsStrictlyIncreasing plan.loss_plan.losses }
    requires mark { ForSome plan.loss_plan.mark (λ m. (1 ≤ m) × (m ≤ most_mark)) }
    requires ss_number { ss.role.number ≡ plan.programs.ss }
    requires ca_number { ca.role.number ≡ plan.programs.ca }
    requires ss_within { KeepsWithin ss.role.look ss.code.code }
    requires ca_within { KeepsWithin ca.role.look ca.code.code }
    requires one { AreOne ss ca }
    ensures flow { result.flow ≡ flow }
    ensures plan { plan_of result ≡ at_once plan }
    ensures ss { result.ss ≡ ss }
    ensures ca { result.ca ≡ ca }
    ensures opening { result.agent ≡ agent_of (kind_of result.agent) result.link.mss ss.role ca.role }
{
    let link_numbers = plan.link_numbers;
    let agent = plan.kind.agent(link_numbers.mss, ss.role, ca.role);
    let link = LinkCase {
        trace: plan.trace,
        mss: link_numbers.mss,
        queue: link_numbers.queue,
        delay_us: link_numbers.delay_us,
        timeout_us: link_numbers.timeout_us,
        losses: plan.loss_plan.losses,
        mark: plan.loss_plan.mark,
    };
    Case {
        flow,
        name: plan.name,
        ss,
        ca,
        agent,
        link,
        acks: link_numbers.acks,
        slots: plan.agent_numbers.slots,
        lag: plan.agent_numbers.lag,
    }
}

/// The case of a flow, with the codes of its programs. It has all that its plan says but the start, which a link has.
pub(crate) fn case(
    alloc: Global,
    programs: &[(u32, Built)],
    flow: u32,
    plan: Plan,
) -> Result<Case, NoMemory>
    requires { IsPlan (length programs.now) plan }
    ensures flow { IfOk result (λ c. c.flow ≡ flow) }
    ensures plan { IfOk result (λ c. plan_of c ≡ at_once plan) }
    ensures coded { IfOk result (λ c. IsCoded programs.now c) }
{
    let (ss, ca) = coded_programs(alloc, programs, plan.programs)?;
    Ok(case_of(flow, plan, ss, ca))
}
