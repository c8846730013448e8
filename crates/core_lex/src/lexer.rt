// Pieces of bytes into text, and text into tokens.
ghost use Rattle.std.specs.Prelude.{◌≡◌, [], ◌++◌, chars, IfOk, OnOk, IfErr, IsUtf8, Err, flat_map};
ghost use Rattle.utf8_text.specs.Utf8Text.{BeginsText, IsRefused, RefusesStart, Leaves, RefusesWhole, RefusesPieces};
ghost use Rattle.core_lex.specs.Tokens.{tokens, IsClosed};
ghost use Rattle.erl_base.specs.declared.refusal.Refusal.{Refusal};
ghost use Rattle.erl_base.specs.declared.refusal.Fault.TheVariants.{Refused};

use crate::scan::scan;
use crate::token::Tokens;
use erl_base::Fault;
use std::alloc::Global;
use std::marker::Model;
use utf8_text::{Pieces, characters};

/// Reads a text that comes in pieces. Contracts see it as the bytes so far.
#[derive(Debug, Drop)]
pub struct Lexer {
    text: Pieces,
}

impl Model for Lexer {
    ghost use Rattle.std.specs.Prelude.{List, ℕ};

    ghost Value = { List ℕ };

    ghost view = { λ l. l.text };
}

impl Lexer {
    /// A lexer that was given no bytes. It takes no memory.
    pub fn new(alloc: Global) -> Lexer
        ensures { result ≡ [] }
    {
        Lexer {
            text: Pieces::new(alloc),
        }
    }

    /// Takes the next piece of the text.
    pub fn feed(&mut self, piece: &[u8]) -> Result<(), Fault>
        ensures ok { OnOk result ((self.new ≡ self.old ++ piece.now) × BeginsText self.new) }
        ensures refused { IfErr result (λ fault. RefusesStart (self.old ++ piece.now) fault) }
        ensures left { IfErr result (λ fault. Leaves self.old self.new fault) }
        ensures again { (refusal : Refusal) → IsRefused self.old refusal → result ≡ Err (Refused refusal) }
    {
        self.text.feed(piece)
    }

    /// The tokens of the whole text.
    pub fn finish(self, alloc: Global) -> Result<Tokens, Fault>
        ensures ok { IfOk result (λ found. IsUtf8 self × (found ≡ tokens (chars self))) }
        ensures closed { IfOk result (λ found. IsClosed found) }
        ensures refused { IfErr result (λ fault. RefusesWhole self fault) }
    {
        let Lexer { text } = self;
        let characters = text.finish(alloc)?;
        Ok(scan(alloc, characters.as_slice())?)
    }
}

/// The tokens of the text that the pieces make. They do not depend on the cuts, nor does the place of a refusal.
pub fn lex(alloc: Global, pieces: &[&[u8]]) -> Result<Tokens, Fault>
    ensures ok { let text = flat_map (λ piece. piece.now) pieces.now in
        IfOk result (λ found. IsUtf8 text × (found ≡ tokens (chars text))) }
    ensures closed { IfOk result (λ found. IsClosed found) }
    ensures refused { IfErr result (λ fault. RefusesPieces (flat_map (λ piece. piece.now) pieces.now) fault) }
{
    let characters = characters(alloc, pieces)?;
    Ok(scan(alloc, characters.as_slice())?)
}
