//! The call of the parser: the forms that a text spells, or the text's first refusal.
ghost use Rattle.std.specs.Prelude.{◌≡◌, ◌≢◌, ◌<◌, ◌≤◌, IfOk, IfErr, Ok, Err, Some, length, map};
ghost use Rattle.std.specs.List.{All};
ghost use Rattle.ccp_base.specs.Outside.{no_memory};
ghost use Rattle.ccp_base.specs.Limits.{most_text_bytes};
ghost use Rattle.ccp_base.specs.declared.place.Place.{Place};
ghost use Rattle.portus_core.specs.Trees.{Nodes, node_of, nodes_of};
ghost use Rattle.portus_lexer.specs.Lexemes.{IsSpan, slice_of};
ghost use Rattle.portus_lexer.specs.Strays.{stray_of};
ghost use Rattle.portus_parser.specs.declared.fault.ParseFault.{ParseFault};
ghost use Rattle.portus_parser.specs.declared.fault.ParseFault.TheVariants.{SourceTooLong, NotText, NoMemory};
ghost use Rattle.portus_parser.specs.Spelling.{Spells};
ghost use Rattle.portus_parser.specs.Refusals.{IsRefused};
ghost use Rattle.portus_parser.specs.Outcomes.{ReadsAs, RefusesAs, IsExact, IsSettled};
ghost use Rattle.portus_parser.specs.Readings.{read_lexemes, unread, lexeme_in, EndsReading};

use crate::fault::ParseFault;
use crate::open_list::OpenList;
use crate::turn::turn;
use portus_core::{Source, Tree};
use portus_lexer::Token;
use portus_lexer::calls::tokens;
use std::alloc::Global;

/// The most bytes of a text.
const TEXT_BYTES: usize = 65536;

/// The bytes of a token.
fn lexeme<'a>(text: &'a [u8], token: &Token) -> &'a [u8]
    requires { IsSpan text.now token.now }
    ensures { result.now ≡ slice_of text.now token.now }
{
    &text[token.start as usize..token.end as usize]
}

/// The forms of a text that has these tokens.
fn read_forms(alloc: Global, text: &[u8], tokens: &[Token]) -> Result<Source, ParseFault>
    requires { All (IsSpan text.now) tokens.now }
    ensures found { IfOk result (λ source.
        read_lexemes unread (map (lexeme_in text.now) tokens.now) ≡ Ok (map node_of source.forms.items)) }
    ensures refused { IfErr result (EndsReading (read_lexemes unread (map (lexeme_in text.now) tokens.now))) }
{
    let mut open_lists: Vec<OpenList> = Vec::new(alloc);
    let mut parts: Vec<Tree> = Vec::new(alloc);
    for token in tokens {
        match turn(
            alloc,
            &mut open_lists,
            parts,
            token.place,
            lexeme(text, token),
        ) {
            Ok(own) => parts = own,
            Err(fault) => return Err(fault),
        }
    }
    match open_lists.pop() {
        Some(open_list) => Err(ParseFault::Unclosed(open_list.place)),
        None => Ok(Source { forms: parts }),
    }
}

/// The forms of a text, or its refusal.
fn parse_text(alloc: Global, text: &[u8]) -> Result<Source, ParseFault>
    ensures exact { IsExact text.now result }
    ensures long { most_text_bytes < length text.now → result ≡ Err SourceTooLong }
    ensures stray { (place : Place) → length text.now ≤ most_text_bytes → stray_of text.now ≡ Some place
        → result ≡ Err (NotText place) }
{
    if text.len() > TEXT_BYTES {
        return Err(ParseFault::SourceTooLong);
    }
    match tokens(alloc, text) {
        Ok(tokens) => read_forms(alloc, text, tokens.as_slice()),
        Err(fault) => Err(ParseFault::from(fault)),
    }
}

/// The forms of a text.
pub fn parse(alloc: Global, text: &[u8]) -> Result<Source, ParseFault>
    // The answer is the forms that the text spells, and a text that spells forms is answered by them.
    ensures found { IfOk result (λ source. Spells text.now (nodes_of source.forms.items)) }
    ensures only { (forms : Nodes) → Spells text.now forms → ReadsAs result forms }

    // Each refusal is the text's first one, and a text that has a first refusal is answered by it.
    ensures refused { IfErr result (λ fault. fault ≢ NoMemory no_memory → IsRefused text.now fault) }
    ensures first { (refusal : ParseFault) → IsRefused text.now refusal → RefusesAs result refusal }

    // A text that is too long, or has a stray byte, is refused for it with or without memory.
    ensures long { most_text_bytes < length text.now → result ≡ Err SourceTooLong }
    ensures stray { (place : Place) → length text.now ≤ most_text_bytes → stray_of text.now ≡ Some place
        → result ≡ Err (NotText place) }

    // A text spells one list of forms or has one first refusal, and not both.
    ensures settled { IsSettled text.now }
{
    parse_text(alloc, text)
}
