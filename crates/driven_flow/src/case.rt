//! The case of a driven flow: its link and its limits, and no agent.
ghost use Rattle.std.specs.Prelude.{◌≡◌, ◌≤◌, IfOk};
ghost use Rattle.ccp_base.specs.Limits.{most_acks, most_slots, most_lag};

use ccp_base::{Name, NoMemory, initial_segments};
use link_model::{Link, LinkCase};
use std::alloc::Global;

/// What a driven flow is: its link, how many acknowledgements come, how many reports may wait, and for how many
/// acknowledgements its answers are late.
#[derive(Drop)]
pub struct DrivenCase {
    pub flow: u32,
    pub name: Name,
    pub link: LinkCase,
    /// 0 to 65,536.
    pub acks: u32,
    /// 1 to 64.
    pub slots: u32,
    /// 0 to 1,000.
    pub lag: u32,
    pub ghost acks_within: { acks ≤ most_acks },
    pub ghost slots_within: { (1 ≤ slots) × (slots ≤ most_slots) },
    pub ghost lag_within: { lag ≤ most_lag },
}

impl DrivenCase {
    ghost use Rattle.std.specs.Prelude.{[]};
    ghost use Rattle.link_model.specs.Standing.{Stands};
    ghost use Rattle.driven_flow.specs.Driven.{initial_window};

    /// An equal case.
    pub fn copy(&self, alloc: Global) -> Result<DrivenCase, NoMemory>
        ensures { IfOk result (λ case. case ≡ self.now) }
    {
        let link = self.link.copy(alloc)?;
        Ok(DrivenCase {
            flow: self.flow,
            name: self.name,
            link,
            acks: self.acks,
            slots: self.slots,
            lag: self.lag,
        })
    }

    /// The window before the first change, in bytes: the initial window of its segment's size.
    pub fn initial_window(&self) -> u64
        ensures { result ≡ initial_window self.now.link.mss }
    {
        initial_segments(self.link.mss) * u64::from(self.link.mss)
    }

    /// The case's link, to which no window was given yet.
    pub(crate) fn open_link(&self, alloc: Global) -> Result<Link, NoMemory>
        ensures case { IfOk result (λ link. link.case ≡ self.now.link) }
        ensures stands { IfOk result (λ link. Stands link []) }
        ensures calls { IfOk result (λ link. link.standing.calls ≡ 0) }
    {
        let link = self.link.copy(alloc)?;
        Link::new(alloc, link)
    }
}
