//! How the cases of the generated scenario are drawn from its number.
ghost use Rattle.std.specs.Prelude.{◌≡◌, ◌≤◌, ◌<◌, ◌+◌, ◌*◌, IfOk, None, [], length, codes, decimal};
ghost use Rattle.std.specs.List.{All};
ghost use Rattle.std.specs.List.Sorted.{IsStrictlyIncreasing};
ghost use Rattle.ccp_base.specs.Limits.{most_flows, most_segment_bytes};
ghost use Rattle.ccp_base.specs.Text.{◌⧺◌};
ghost use Rattle.agent_core.specs.Kinds.{avoidance_of, built_in_count};
ghost use Rattle.scene_members.specs.Plans.{IsPlan, AreLinkNumbers, AreAgentNumbers};
ghost use Rattle.scenario_json.specs.Soak.{draw, segment, drawn_link_numbers, drawn_losses, drawn_loss_plan, drawn_agent_numbers};
ghost use Rattle.scenario_json.specs.Soak.{kind_at, text_at, times_at, drawn_plan, drawn_plans};

use agent_core::Kind;
use ccp_base::{Name, NoMemory, Sequence};
use link_model::{Trace, TraceFault};
use scene_members::{AgentNumbers, LinkNumbers, LossPlan, Plan, Plans, Programs};
use std::alloc::Global;

/// The cases of a generated scenario.
const CASES: u32 = 64;

/// What is drawn from.
#[derive(Drop)]
pub(crate) struct Draws {
    pub x: u64,
}

impl Draws {
    /// A draw of this many, from 0.
    fn draw(&mut self, many: u64) -> u64
        requires { 1 ≤ many }
        ensures drawn { (result, self.new.x) ≡ draw many self.old.x }
        ensures below { result < many }
    {
        let product = u128::from(self.x) * 6_364_136_223_846_793_005;
        self.x = ((product + 1_442_695_040_888_963_407) % (1 << 64)) as u64;
        (self.x / (1 << 33)) % many
    }
}

/// A size of segments, in bytes.
fn segment(choice: u64) -> u32
    ensures size { result ≡ segment choice }
    ensures least { 1 ≤ result }
    ensures most { result ≤ most_segment_bytes }
{
    match choice {
        0 => 536,
        1 => 1448,
        _ => 8948,
    }
}

fn link_numbers(draws: &mut Draws) -> LinkNumbers
    ensures drawn { (result, draws.new.x) ≡ drawn_link_numbers draws.old.x }
    ensures within { AreLinkNumbers result }
{
    let acks = draws.draw(2001);
    let mss = draws.draw(3);
    let queue = draws.draw(200);
    let delay = draws.draw(100);
    LinkNumbers {
        mss: segment(mss),
        queue: 5 + queue as u32,
        delay_us: 1000 * (5 + delay),
        timeout_us: 1_000_000,
        acks: 2000 + acks as u32,
    }
}

/// This many losses, each above the one before.
fn losses(alloc: Global, draws: &mut Draws, count: u64) -> Result<Sequence<u32>, NoMemory>
    requires { count < 8 }
    ensures drawn { IfOk result (λ ls. (ls, draws.new.x) ≡ drawn_losses count 0 [] draws.old.x) }
    ensures rise { IfOk result IsStrictlyIncreasing }
{
    let mut losses = Sequence::new(alloc);
    let mut before = 0;
    let mut left = count;
    while left > 0 {
        before += 50 + draws.draw(500) as u32;
        losses.push(before)?;
        left -= 1;
    }
    Ok(losses)
}

fn loss_plan(alloc: Global, draws: &mut Draws) -> Result<LossPlan, NoMemory>
    ensures drawn { IfOk result (λ f. (f.losses, draws.new.x) ≡ drawn_loss_plan draws.old.x) }
    ensures unmarked { IfOk result (λ f. f.mark ≡ None) }
    ensures rise { IfOk result (λ f. IsStrictlyIncreasing f.losses) }
{
    let count = draws.draw(8);
    Ok(LossPlan {
        losses: losses(alloc, draws, count)?,
        mark: None,
    })
}

fn agent_numbers(draws: &mut Draws) -> AgentNumbers
    ensures drawn { (result, draws.new.x) ≡ drawn_agent_numbers draws.old.x }
    ensures within { AreAgentNumbers result }
{
    let slots = draws.draw(4);
    let lag = draws.draw(20);
    AgentNumbers {
        slots: 1 + slots as u32,
        lag: lag as u32,
    }
}

fn kind_at(choice: u64) -> Kind
    ensures { result ≡ kind_at choice }
{
    if choice == 0 { Kind::Reno } else { Kind::Cubic }
}

fn text_at(choice: u64) -> &'static [u8]
    ensures { result.now ≡ text_at choice }
{
    match choice {
        0 => b"1\n",
        1 => b"2\n3\n",
        2 => b"1\n1\n5\n",
        _ => b"10\n",
    }
}

#[tactic(auto, using(crate::proofs::DrawLemmas::text_read))]
fn trace_at(alloc: Global, choice: u64) -> Result<Trace, NoMemory>
    ensures { IfOk result (λ t. t ≡ times_at choice) }
{
    match Trace::read(alloc, text_at(choice)) {
        Ok(trace) => Ok(trace),
        Err(TraceFault::NoMemory(error)) => Err(error),
        Err(_) => unreachable!(),
    }
}

#[tactic(auto, using(crate::proofs::DrawLemmas::name_named))]
fn case_name(alloc: Global, i: usize) -> Result<Name, NoMemory>
    ensures { IfOk result (λ n. n ≡ codes "s" ⧺ decimal i) }
{
    let text = format!(in alloc; "s{i}")?;
    match Name::new(text.as_bytes()) {
        Some(name) => Ok(name),
        None => unreachable!(),
    }
}

/// The case of this number.
fn plan(alloc: Global, draws: &mut Draws, i: usize) -> Result<Plan, NoMemory>
    ensures drawn { IfOk result (λ p. (p, draws.new.x) ≡ drawn_plan i draws.old.x) }
    ensures within { IfOk result (λ p. IsPlan built_in_count p) }
{
    let name = case_name(alloc, i)?;
    let link_numbers = link_numbers(draws);
    let loss_plan = loss_plan(alloc, draws)?;
    let agent_numbers = agent_numbers(draws);
    let kind = kind_at(draws.draw(2));
    let trace = trace_at(alloc, draws.draw(4))?;
    Ok(Plan {
        name,
        kind,
        trace,
        link_numbers,
        agent_numbers,
        loss_plan,
        start_us: 0,
        programs: Programs {
            ss: 0,
            ca: kind.avoidance(),
        },
    })
}

/// The cases of the generated scenario of a number.
#[tactic(auto, using(scene_members::proofs::ListLemmas::all_pushed))]
pub(crate) fn plans(alloc: Global, number: u32) -> Result<Plans, NoMemory>
    ensures drawn { IfOk result (λ ps. ps ≡ drawn_plans most_flows [] number) }
    ensures within { IfOk result (λ ps. All (IsPlan built_in_count) ps) }
    ensures count { IfOk result (λ ps. length ps ≡ most_flows) }
{
    let mut draws = Draws {
        x: u64::from(number),
    };
    let mut plans = Sequence::new(alloc);
    let mut left = CASES;
    while left > 0 {
        let next = plan(alloc, &mut draws, plans.len())?;
        plans.push(next)?;
        left -= 1;
    }
    Ok(plans)
}
