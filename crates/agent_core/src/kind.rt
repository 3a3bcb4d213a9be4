//! The kinds of agents, by name: what each runs in congestion avoidance, and its agent in the initial state.
ghost use Rattle.std.specs.Prelude.{◌≡◌, ◌≤◌, ◌<◌, bytes_eq};
ghost use Rattle.ccp_base.specs.Limits.{most_segment_bytes};
ghost use Rattle.agent_core.specs.Agents.{course_of, mss_of};
ghost use Rattle.agent_core.specs.Kinds.{kinds, kind_named, name_of, avoidance_of, agent_of, kind_of, built_in_count};

use crate::agent::Agent;
use ccp_base::Role;
use cubic_agent::Cubic;
use reno_agent::Reno;

/// How many programs are built in. Program 0 is that of slow start, for agents of every kind; the others are those of
/// congestion avoidance.
pub const BUILT_INS: u32 = 3;

/// Which agent a flow has.
#[derive(Clone, Copy)]
pub enum Kind {
    Reno,
    Cubic,
}

/// All kinds.
const KINDS: [Kind; 2] = [Kind::Reno, Kind::Cubic];

impl Kind {
    /// The kind of this name; None if no kind has it.
    pub fn from_name(name: &[u8]) -> Option<Kind>
        ensures { result ≡ kind_named name.now }
    {
        KINDS.iter().copied().find(|kind| kind.is_named(name))
    }

    fn is_named(self, name: &[u8]) -> bool
        ensures { result ≡ bytes_eq name.now (name_of self) }
    {
        name == self.name().as_bytes()
    }

    /// The kind's name, as scenarios and printed lines have it.
    pub fn name(self) -> &'static str
        ensures { result.now ≡ name_of self }
    {
        match self {
            Kind::Reno => "reno",
            Kind::Cubic => "cubic",
        }
    }

    /// The number of its built-in program of congestion avoidance.
    pub fn avoidance(self) -> u32
        ensures number { result ≡ avoidance_of self }
        ensures built_in { result < built_in_count }
    {
        match self {
            Kind::Reno => 1,
            Kind::Cubic => 2,
        }
    }

    /// An agent of this kind in its initial state, of a flow whose segments have `mss` bytes, with its programs of
    /// slow start and of congestion avoidance.
    pub fn agent(self, mss: u32, ss: Role, ca: Role) -> Agent
        requires least { 1 ≤ mss }
        requires most { mss ≤ most_segment_bytes }
        ensures agent { result ≡ agent_of self mss ss ca }
        ensures kind { kind_of result ≡ self }
        ensures segment { mss_of result ≡ mss }
        ensures ss { (course_of result).ss ≡ ss }
        ensures ca { (course_of result).ca ≡ ca }
    {
        match self {
            Kind::Reno => Agent::Reno(Reno::new(mss, ss, ca)),
            Kind::Cubic => Agent::Cubic(Cubic::new(mss, ss, ca)),
        }
    }
}
