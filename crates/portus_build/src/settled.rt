//! Laws: each text stands for one program that is compiled, or has one first refusal, which the walks over it find; and
//! the built-in texts are programs.
ghost use Rattle.portus_build.specs.BuiltinPrograms.{AreBuiltIn};
ghost use Rattle.portus_build.specs.Settled.{AreSettled};
ghost use Rattle.portus_build.specs.TextWalk.{WalksAreExact};

/// The law of building: each text stands for one program that is compiled, or has one first refusal, which is that
/// of a rule and never out of memory, and not both.
pub fn build_law()
    ensures { AreSettled }
{}

/// The law of walks: for each text, the walks over its bytes, tokens and forms find the program that it stands for, or
/// its first refusal.
pub fn walk_law()
    ensures { WalksAreExact }
{}

/// The law of the built-in texts: each of the three is built, and its program has the fields and the control variables
/// that its agent uses.
pub fn builtin_law()
    ensures { AreBuiltIn }
{}
