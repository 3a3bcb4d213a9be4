//! Numbers of workers.
ghost use Rattle.std.specs.Prelude.{◌≡◌, ◌≤◌};
ghost use Rattle.ccp_base.specs.Limits.{most_workers};

/// How many workers of a kind a run has: 1 to 32.
#[derive(Clone, Copy)]
pub struct Workers {
    count: u32,
    ghost some: { 1 ≤ count },
    ghost most: { count ≤ most_workers },
}

impl Workers {
    /// This number of workers.
    pub fn new(count: u32) -> Self
        requires some { 1 ≤ count }
        requires most { count ≤ most_workers }
        ensures { result.count ≡ count }
    {
        Workers { count }
    }

    /// The number of workers.
    pub fn count(self) -> u32
        ensures count { result ≡ self.count }
        ensures some { 1 ≤ result }
        ensures most { result ≤ most_workers }
    {
        self.count
    }
}
