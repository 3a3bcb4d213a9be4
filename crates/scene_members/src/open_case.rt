//! The case of a rollout's flow: its link, its acknowledgements, its first window and its steps' texts.
ghost use Rattle.std.specs.Prelude.{◌≡◌, ◌≤◌, ◌↔◌, IsTrue, IfOk, length};
ghost use Rattle.ccp_base.specs.Limits.{most_acks, most_first_window, most_steps};

use ccp_base::{Bytes, Name, NoMemory, Sequence, same_bytes};
use link_model::LinkCase;
use std::alloc::Global;

/// The texts of programs, in the order in which they are installed.
pub type StepTexts = Sequence<Bytes>;

/// What a flow of a rollout is: its link, how many acknowledgements come, its window at first, and the texts that are
/// installed one after another.
#[derive(Drop)]
pub struct OpenCase {
    pub flow: u32,
    pub name: Name,
    pub link: LinkCase,
    /// 0 to 65,536.
    pub acks: u32,
    /// In bytes, 0 to 4,294,967,295.
    pub cwnd: u64,
    /// 1 to 16.
    pub steps: StepTexts,
    pub ghost acks_within: { acks ≤ most_acks },
    pub ghost cwnd_within: { cwnd ≤ most_first_window },
    pub ghost steps_within: { (1 ≤ length steps) × (length steps ≤ most_steps) },
}

/// The cases of a rollout, in order.
pub type OpenCases = Sequence<OpenCase>;

impl OpenCase {
    /// An equal case.
    pub fn copy(&self, alloc: Global) -> Result<OpenCase, NoMemory>
        ensures { IfOk result (λ case. case ≡ self.now) }
    {
        let link = self.link.copy(alloc)?;
        let steps = copy_of(alloc, self.steps.as_slice())?;
        Ok(OpenCase {
            flow: self.flow,
            name: self.name,
            link,
            acks: self.acks,
            cwnd: self.cwnd,
            steps,
        })
    }

    /// Whether two cases are equal.
    pub fn same(&self, other: &OpenCase) -> bool
        ensures { IsTrue result ↔ (self.now ≡ other.now) }
    {
        if self.flow != other.flow || !same_bytes(self.name.as_slice(), other.name.as_slice()) {
            return false;
        }
        if !self.link.same(&other.link) {
            return false;
        }
        if self.acks != other.acks || self.cwnd != other.cwnd {
            return false;
        }
        same_texts(self.steps.as_slice(), other.steps.as_slice())
    }
}

fn copy_of(alloc: Global, texts: &[Bytes]) -> Result<StepTexts, NoMemory>
    ensures { IfOk result (λ copies. copies ≡ texts.now) }
{
    let mut copies = Sequence::new(alloc);
    let mut rest = texts;
    while let Some((text, later)) = rest.split_first() {
        copies.push(bytes_of(alloc, text.as_slice())?)?;
        rest = later;
    }
    Ok(copies)
}

/// The bytes of a piece, in memory of their own.
pub(crate) fn bytes_of(alloc: Global, text: &[u8]) -> Result<Bytes, NoMemory>
    ensures { IfOk result (λ bytes. bytes ≡ text.now) }
{
    Ok(Sequence::from_vec(text.to_vec(alloc)?))
}

fn same_texts(these: &[Bytes], others: &[Bytes]) -> bool
    ensures { IsTrue result ↔ (these.now ≡ others.now) }
{
    let mut left = these;
    let mut right = others;
    while let Some((first, rest)) = left.split_first() {
        let Some((other, after)) = right.split_first() else {
            return false;
        };
        if !same_bytes(first.as_slice(), other.as_slice()) {
            return false;
        }
        left = rest;
        right = after;
    }
    right.is_empty()
}
