//! The last window that a link was given, with how many packets it allows to be in flight.
ghost use Rattle.std.specs.Prelude.{◌≡◌, ◌≤◌};
ghost use Rattle.ccp_base.specs.Limits.{most_flight};
ghost use Rattle.link_model.specs.Link.{allowance};

use crate::link_case::LinkCase;

/// A window, and how many packets it allows to be in flight: a division, kept while the window stays the same.
#[derive(Clone, Copy)]
pub(crate) struct Allowed {
    /// In bytes.
    window: u64,
    packets: u64,
}

impl Allowed {
    /// An empty window.
    pub(crate) fn none(case: &LinkCase) -> Allowed
        ensures kept { result.packets ≡ allowance case.now result.window }
    {
        Allowed {
            window: 0,
            packets: case.allowance(0),
        }
    }

    /// How many packets `window`, in bytes, allows to be in flight. It is the last window then.
    #[inline(always)]
    pub(crate) fn by(&mut self, case: &LinkCase, window: u64) -> u64
        requires kept { self.old.packets ≡ allowance case.now self.old.window }
        ensures value { result ≡ allowance case.now window }
        ensures within { result ≤ most_flight }
        ensures kept { self.new.packets ≡ allowance case.now self.new.window }
    {
        if window != self.window {
            self.window = window;
            self.packets = case.allowance(window);
        }
        self.packets
    }
}
