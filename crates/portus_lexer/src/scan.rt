//! The scan of a text byte by byte: whether each is in a gap, a comment or an atom, and which tokens end with it.
ghost use Rattle.std.specs.Prelude.{◌≡◌, ◌+◌, ◌<◌, ◌≤◌, ◌++◌, ◌||◌, ◌==◌, [], IfOk, IfErr, OnOk, false, if◌then◌else◌};
ghost use Rattle.ccp_base.specs.Limits.{most_text_bytes};
ghost use Rattle.portus_lexer.specs.declared.within.Within.TheVariants.{Gap};
ghost use Rattle.portus_lexer.specs.Bytes.{is_allowed, is_atom_byte};
ghost use Rattle.portus_lexer.specs.Places.{first_place, place_past_byte};
ghost use Rattle.portus_lexer.specs.Scanning.{is_refused, after_mark, within_next, open_atom_token, parenthesis, put_by, FaultsAt};

use crate::token::{LexFault, Token, Tokens};
use crate::within::Within;
use ccp_base::Place;

/// How far a text has been cut: the number of the next byte, its place and what it is in.
#[derive(Clone, Copy)]
pub struct Scan {
    pub at: u32,
    pub place: Place,
    pub within: Within,
    ghost lines: { place.line ≤ at + 1 },
    ghost columns: { place.column ≤ at + 1 },
}

/// Whether the byte may stand outside comments.
pub fn is_allowed(byte: u8) -> bool
    ensures { result ≡ is_allowed byte }
{
    byte == b'\t' || byte == b'\n' || byte == b'\r' || (byte >= b' ' && byte <= b'~')
}

/// Whether the byte belongs to an atom.
fn is_atom_byte(byte: u8) -> bool
    ensures { result ≡ is_atom_byte byte }
{
    byte > b' ' && byte <= b'~' && byte != b'(' && byte != b')' && byte != b'#'
}

/// The place after a byte.
pub fn step(place: Place, byte: u8) -> Place
    requires lines { place.line ≤ most_text_bytes }
    requires columns { place.column ≤ most_text_bytes }
    ensures { result ≡ place_past_byte place byte }
{
    if byte == b'\n' {
        Place {
            line: place.line + 1,
            column: 1,
        }
    } else {
        Place {
            line: place.line,
            column: place.column + 1,
        }
    }
}

/// What the byte after one that belongs to no atom is in.
fn after_mark(byte: u8) -> Within
    ensures { result ≡ after_mark byte }
{
    if byte == b'#' {
        Within::Comment
    } else {
        Within::Gap
    }
}

impl Scan {
    /// At the text's first byte.
    pub fn start() -> Self
        ensures number { result.at ≡ 0 }
        ensures place { result.place ≡ first_place }
        ensures within { result.within ≡ Gap }
    {
        Scan {
            at: 0,
            place: Place { line: 1, column: 1 },
            within: Within::Gap,
        }
    }

    /// What the byte after this one is in.
    fn next(&self, byte: u8) -> Within
        ensures { result ≡ within_next self.now.within self.now.place self.now.at byte }
    {
        match self.within {
            Within::Comment => {
                if byte == b'\n' {
                    Within::Gap
                } else {
                    Within::Comment
                }
            }
            Within::Gap => {
                if is_atom_byte(byte) {
                    Within::Atom(self.place, self.at)
                } else {
                    after_mark(byte)
                }
            }
            Within::Atom(place, start) => {
                if is_atom_byte(byte) {
                    Within::Atom(place, start)
                } else {
                    after_mark(byte)
                }
            }
        }
    }

    /// Whether the byte may not stand here.
    fn refuses(&self, byte: u8) -> bool
        ensures { result ≡ is_refused self.now.within byte }
    {
        match self.within {
            Within::Comment => false,
            Within::Gap | Within::Atom(..) => !is_allowed(byte),
        }
    }

    /// Appends the open atom, if there is one, to the tokens.
    pub fn close(&self, tokens: &mut Tokens) -> Result<(), LexFault>
        ensures ok { OnOk result (tokens.new ≡ tokens.old ++ open_atom_token self.now.within self.now.at) }
        ensures refused { IfErr result (FaultsAt self.now.place false) }
    {
        if let Within::Atom(place, start) = self.within {
            tokens.push(Token {
                place,
                start,
                end: self.at,
            })?;
        }
        Ok(())
    }

    /// Appends the byte to the tokens, if it is a parenthesis.
    fn parenthesis(&self, tokens: &mut Tokens, byte: u8) -> Result<(), LexFault>
        requires { self.now.at < most_text_bytes }
        ensures ok { OnOk result (tokens.new ≡ tokens.old ++ parenthesis self.now.place self.now.at byte) }
        ensures refused { IfErr result (FaultsAt self.now.place false) }
    {
        if byte == b'(' || byte == b')' {
            tokens.push(Token {
                place: self.place,
                start: self.at,
                end: self.at + 1,
            })?;
        }
        Ok(())
    }

    /// Appends the tokens that end with the byte.
    fn put(&self, tokens: &mut Tokens, byte: u8) -> Result<(), LexFault>
        requires { self.now.at < most_text_bytes }
        ensures ok { OnOk result (tokens.new ≡ tokens.old ++ put_by self.now.within self.now.place self.now.at byte) }
        ensures refused { IfErr result (FaultsAt self.now.place false) }
    {
        match self.within {
            Within::Comment => Ok(()),
            Within::Gap | Within::Atom(..) => {
                if is_atom_byte(byte) {
                    return Ok(());
                }
                self.close(tokens)?;
                self.parenthesis(tokens, byte)
            }
        }
    }

    /// Reads a byte and appends the tokens that end with it.
    pub fn read(self, tokens: &mut Tokens, byte: u8) -> Result<Self, LexFault>
        requires { self.at < most_text_bytes }
        ensures number { IfOk result (λ next. next.at ≡ self.at + 1) }
        ensures place { IfOk result (λ next. next.place ≡ place_past_byte self.place byte) }
        ensures within { IfOk result (λ next. next.within ≡ within_next self.within self.place self.at byte) }
        ensures allowed { OnOk result (is_refused self.within byte ≡ false) }
        ensures tokens { OnOk result (tokens.new ≡ tokens.old ++ put_by self.within self.place self.at byte) }
        ensures refused { IfErr result (FaultsAt self.place (is_refused self.within byte)) }
    {
        if self.refuses(byte) {
            return Err(LexFault::NotText(self.place));
        }
        self.put(tokens, byte)?;
        Ok(Scan {
            at: self.at + 1,
            place: step(self.place, byte),
            within: self.next(byte),
        })
    }
}
