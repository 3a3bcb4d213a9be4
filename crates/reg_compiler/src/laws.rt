//! A law: the expressions of known value are exactly those without names that don't fault.
ghost use Rattle.reg_compiler.specs.Known.{KnownExactly};

/// `known_value` gives a value exactly for expressions that have no name and don't fault, and it is their value for
/// every state and every acknowledgement.
pub fn known_law()
    ensures { KnownExactly }
{}
