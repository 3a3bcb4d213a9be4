//! What a link's later acknowledgements take from earlier ones: the last round-trip sample.
ghost use Rattle.std.specs.Prelude.{◌≡◌};
ghost use Rattle.link_model.specs.Link.{no_past, past_in};

use ccp_base::Ack;

/// What later acknowledgements take from earlier ones.
#[derive(Clone, Copy)]
pub struct Past {
    /// The last round-trip sample, in microseconds, 0 if there was none.
    pub rtt_sample_us: u64,
}

impl Past {
    /// Nothing was acknowledged yet.
    #[inline]
    pub fn none() -> Past
        ensures { result ≡ no_past }
    {
        Past { rtt_sample_us: 0 }
    }

    /// What acknowledgements after `ack` take from it.
    #[inline(always)]
    pub fn after(ack: &Ack) -> Past
        ensures { result ≡ past_in ack.entry.now }
    {
        Past {
            rtt_sample_us: ack.rtt_sample_us,
        }
    }
}
