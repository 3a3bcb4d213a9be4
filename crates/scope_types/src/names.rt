//! The names that have a meaning beside those of the language: declarations, and a body's locals.
ghost use Rattle.std.specs.Prelude.{◌≡◌, ◌≤◌, length};
ghost use Rattle.ccp_base.specs.Limits.{most_fields, most_controls, most_locals};

use crate::declarations::Declarations;
use ccp_base::{Name, Sequence};

/// A local of a block's body.
#[derive(Clone, Copy)]
pub(crate) struct Local {
    pub name: Name,
    /// Whether it is a Bool.
    pub truth: bool,
}

/// The names that have a meaning beside those of the language.
#[derive(Drop)]
pub(crate) struct Names {
    pub fields: Declarations,
    pub controls: Declarations,
    pub locals: Sequence<Local>,
    ghost few_fields: { length fields ≤ most_fields },
    ghost few_controls: { length controls ≤ most_controls },
    ghost few_locals: { length locals ≤ most_locals },
}
