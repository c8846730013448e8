// Flags of segments, by any list of their words.
ghost use Rattle.std.specs.Prelude.{◌≡◌, ◌||◌, map, codes};
ghost use Rattle.erl_base.specs.Names.{same_name};
ghost use Rattle.erl_term.specs.Comparing.{AllNormal};
ghost use Rattle.erl_term.specs.View.{view};
ghost use Rattle.erl_term.specs.WellFormed.{IsNormal};
ghost use Rattle.term_read.specs.Reading.{Gives};
ghost use Rattle.beam_table.specs.View.{flags_view};
ghost use Rattle.beam_table.specs.declared.opcode.Kind.TheVariants as K;
ghost use Rattle.insn_terms.specs.Reading as Plain;
ghost use Rattle.insn_terms.specs.Spelling.{is_flag};

use crate::operand::Operand;
use crate::terms::{atom_of, behind, is_word, items_of};
use beam_table::Flags;
use erl_base::Name;
use erl_term::Term;
use std::alloc::Global;
use term_read::Unread;

/// `{field_flags,[..]}`.
#[derive(Drop)]
pub struct FieldFlags(pub Flags);

/// `nil`, or words behind `literal`.
#[derive(Drop)]
pub struct FlagList(pub Flags);

impl Operand for FieldFlags {
    ghost kind = { K.FieldFlags };

    ghost plain = { λ v. flags_view v.0 };

    fn read(_alloc: Global, term: &Term) -> Result<FieldFlags, Unread> {
        let words = behind("field_flags", term)?;
        let flags = flags_in(words)?;
        Ok(FieldFlags(flags))
    }
}

impl Operand for FlagList {
    ghost kind = { K.FlagList };

    ghost plain = { λ v. flags_view v.0 };

    fn read(_alloc: Global, term: &Term) -> Result<FlagList, Unread> {
        match atom_of(term) {
            Ok(word) => nil_flags(word),
            Err(_) => literal_flags(term),
        }
    }
}

fn nil_flags(word: &Name) -> Result<FlagList, Unread>
    ensures { Gives (λ v. flags_view v.0) result (Plain.nil_flags word.now) }
{
    if is_word(word, "nil") {
        Ok(FlagList(NO_FLAGS))
    } else {
        Err(Unread::Syntax)
    }
}

/// Flags that no word says.
const NO_FLAGS: Flags = Flags {
    signed: false,
    little: false,
};

fn literal_flags(term: &Term) -> Result<FlagList, Unread>
    requires { IsNormal term.now }
    ensures { Gives (λ v. flags_view v.0) result (Plain.flag_list_at None (view term.now)) }
{
    let words = behind("literal", term)?;
    let flags = flags_in(words)?;
    Ok(FlagList(flags))
}

// The flags of a list of words.
fn flags_in(term: &Term) -> Result<Flags, Unread>
    requires { IsNormal term.now }
    ensures { Gives flags_view result (Plain.flags_in (view term.now)) }
{
    let words = items_of(term)?;
    words_in(words)
}

fn words_in(terms: &[Term]) -> Result<Flags, Unread>
    requires { AllNormal terms.now }
    ensures { Gives flags_view result (Plain.words_in (map view terms.now)) }
{
    let mut flags = NO_FLAGS;
    for term in terms {
        let word = atom_of(term)?;
        if !is_flag(word) {
            return Err(Unread::Syntax);
        }
        flags = with_word(flags, word);
    }
    Ok(flags)
}

// Flags, and this word too.
fn with_word(flags: Flags, word: &Name) -> Flags
    ensures signed { result.signed ≡ (flags.signed || same_name (codes "signed") word.now) }
    ensures little { result.little ≡ (flags.little || same_name (codes "little") word.now) }
{
    Flags {
        signed: flags.signed || is_word(word, "signed"),
        little: flags.little || is_word(word, "little"),
    }
}

#[tactic(auto, using(crate::proofs::Words::flipped))]
fn is_flag(name: &Name) -> bool
    ensures { result ≡ is_flag name.now }
{
    is_word(name, "signed")
        || is_word(name, "little")
        || is_word(name, "unsigned")
        || is_word(name, "big")
}
