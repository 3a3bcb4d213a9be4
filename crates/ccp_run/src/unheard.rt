//! A source whose answers nobody hears.

ghost use Rattle.std.specs.Prelude.{◌≡◌, None, refl};
ghost use Rattle.std.proofs.Common.{◌∙◌};

use ccp_base::{Failed, Source};
use feed_core::Duplex;

/// A source, borrowed, whose answers go nowhere: what is written isn't known, and no write fails.
#[derive(Drop)]
pub struct Unheard<'s, S: Source> {
    pub source: &'s mut S,
}

impl<'s, S: Source> Duplex for Unheard<'s, S> {
    ghost remaining = { λ u. S.remaining u.source.now };

    ghost written = { λ u. None };

    ghost read_faults = { λ u. S.faults u.source.now };

    ghost write_faults = { λ u. 0 };

    ghost MayRead = { λ u. Unit {0} };

    ghost Follows = { λ u v. v.source.ghost_name ≡ u.source.ghost_name };

    ghost follows_itself = { λ u. refl };

    ghost follows_on = { λ a b c first next. next ∙ first };

    fn read(&mut self, out: &mut [u8]) -> Result<usize, Failed> {
        self.source.read(out)
    }

    fn write(&mut self, bytes: &[u8]) -> Result<usize, Failed> {
        Ok(bytes.len())
    }

    fn finish(&mut self) -> Result<(), Failed> {
        Ok(())
    }
}
