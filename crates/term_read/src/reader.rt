// Reading the term of a whole text.
ghost use Rattle.std.specs.Prelude.{◌≡◌, chars, IfOk, IfErr};
ghost use Rattle.erl_term.specs.Term as Plain;
ghost use Rattle.erl_term.specs.View.{view};
ghost use Rattle.erl_term.specs.WellFormed.{IsWellFormed};
ghost use Rattle.term_read.specs.TermGrammar.{IsTermText};
ghost use Rattle.term_read.specs.Reading.{Gives, read_whole};
ghost use Rattle.term_read.specs.WholeText.{GivesText, RefusesText};

use crate::lexemes::behind_blanks;
use crate::read::read_at;
use crate::unread::Unread;
use erl_base::{Fault, Kind, NoMemory, Place, Refusal};
use erl_term::Term;
use std::alloc::Global;

/// How deep a term may nest in a text.
pub const MOST_NESTING: u32 = 2100;

/// The term that the bytes are a text of. Its place of fault is always 1:1.
pub fn read_term(alloc: Global, text: &[u8]) -> Result<Term, Fault>
    ensures read { IfOk result (λ term. IsTermText text.now (view term)) }
    ensures well_formed { IfOk result (λ term. IsWellFormed term) }
    ensures only { (t : Plain.Term) → IsTermText text.now t → IfOk result (λ term. view term ≡ t) }
    ensures refused { IfErr result (λ fault. RefusesText text.now fault) }
{
    match read_bytes(alloc, text) {
        Ok(term) => Ok(term),
        Err(Unread::NoMemory) => Err(Fault::NoMemory),
        Err(Unread::Syntax) => Err(Fault::Refused(Refusal {
            kind: Kind::AsmSyntax,
            place: Place { line: 1, column: 1 },
        })),
    }
}

fn read_bytes(alloc: Global, bytes: &[u8]) -> Result<Term, Unread>
    ensures value { GivesText bytes.now result }
    ensures well_formed { IfOk result (λ term. IsWellFormed term) }
{
    match str::from_utf8(bytes) {
        Err(_) => Err(Unread::Syntax),
        Ok(text) => {
            let characters = characters_of(alloc, text)?;
            read_whole(alloc, characters.as_slice())
        }
    }
}

#[tactic(auto, unfolding(crate::specs::Reading::read_whole))]
fn read_whole(alloc: Global, cs: &[char]) -> Result<Term, Unread>
    ensures value { Gives view result (read_whole cs.now) }
    ensures well_formed { IfOk result (λ term. IsWellFormed term) }
{
    let (term, rest) = read_at(cs, alloc, MOST_NESTING)?;
    if behind_blanks(rest).is_empty() {
        Ok(term)
    } else {
        Err(Unread::Syntax)
    }
}

fn characters_of(alloc: Global, text: &str) -> Result<Vec<char>, NoMemory>
    ensures { IfOk result (λ all. all.items ≡ chars text.now) }
{
    Ok(text.chars().collect(alloc)?)
}
