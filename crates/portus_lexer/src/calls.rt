//! The call of the lexer: a text's tokens in order, or the first byte that isn't allowed.
ghost use Rattle.std.specs.Prelude.{◌≡◌, ◌≤◌, List, length, Some, IfOk, IfErr, OnOk, Err};
ghost use Rattle.ccp_base.specs.Limits.{most_text_bytes};
ghost use Rattle.ccp_base.specs.declared.place.Place.{Place};
ghost use Rattle.portus_lexer.specs.declared.token.Token.{Token};
ghost use Rattle.portus_lexer.specs.declared.token.LexFault.TheVariants.{NotText};
ghost use Rattle.portus_lexer.specs.declared.within.Within.TheVariants.{Gap};
ghost use Rattle.portus_lexer.specs.Places.{first_place};
ghost use Rattle.portus_lexer.specs.Lexemes.{AreTokens};
ghost use Rattle.portus_lexer.specs.Strays.{stray_of, HasCause};
ghost use Rattle.portus_lexer.specs.Scanning.{scan, EndsScan};

use crate::scan::Scan;
use crate::stray::before_memory;
use crate::token::{LexFault, Tokens};
use std::alloc::Global;

/// The tokens that one pass over the text finds.
fn scan_tokens(alloc: Global, text: &[u8]) -> Result<Tokens, LexFault>
    requires { length text.now ≤ most_text_bytes }
    ensures found { IfOk result (λ tokens. scan Gap first_place 0 text.now ≡ Ok tokens) }
    ensures refused { IfErr result (EndsScan (scan Gap first_place 0 text.now)) }
{
    let mut tokens = Tokens::new(alloc);
    let mut scan = Scan::start();
    for byte in text {
        scan = scan.read(&mut tokens, *byte)?;
    }
    scan.close(&mut tokens)?;
    Ok(tokens)
}

/// The tokens of a text in order, each with its span. The text has at most 65,536 bytes.
#[tactic(auto, using(crate::proofs::Laws::exact))]
pub fn tokens(alloc: Global, text: &[u8]) -> Result<Tokens, LexFault>
    requires { length text.now ≤ most_text_bytes }
    ensures found { IfOk result (AreTokens text.now) }

    // A text has one list of tokens.
    ensures only { IfOk result (λ tokens. (others : List Token) → AreTokens text.now others → others ≡ tokens) }

    // If a byte outside comments isn't allowed there, the answer is the place of the first one, with or without memory.
    ensures clean { OnOk result (stray_of text.now ≡ None) }
    ensures refused { IfErr result (HasCause text.now) }
    ensures stray { (place : Place) → stray_of text.now ≡ Some place → result ≡ Err (NotText place) }
{
    match scan_tokens(alloc, text) {
        Ok(tokens) => Ok(tokens),
        Err(fault) => Err(before_memory(text, fault)),
    }
}
