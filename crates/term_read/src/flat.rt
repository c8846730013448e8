// Forms that hold no terms: numbers in marks, external funs, the head of a local fun, raw traces, parts of bit strings.
ghost use Rattle.std.specs.Prelude.{◌≡◌, ◌+◌, ◌<◌, ◌≤◌, ◌^◌, ◌&&◌, nat_le, nat_lt, length, option_map, IfOk, IsTrue};
ghost use Rattle.erl_term.specs.View.{view, class_view};
ghost use Rattle.erl_term.specs.WellFormed.{IsWellFormed};
ghost use Rattle.term_read.specs.TermGrammar.{class_named, class_in, extern_rest, fun_head, number_in, of_size, part_at};
ghost use Rattle.term_read.specs.Lexemes.{number_at};
ghost use Rattle.term_read.specs.Reading.{Gives};
ghost use Rattle.term_read.specs.BitParts.{is_part};

use crate::lexemes::{behind_blanks, expect, mark_at, name_at, number_at, word_front};
use crate::unread::Unread;
use erl_base::Name;
use erl_term::{Class, Term};
use std::alloc::Global;
use term_text::is_same;

/// What an arity and a site are below.
const HALF: u128 = 4294967296;

/// A part of a bit string: its number, and how many bits it has.
#[derive(Clone, Copy, Debug, PartialEq, Eq)]
pub struct Part {
    pub number: u8,
    pub size: u8,
}

/// A local fun without the terms that it captured.
#[derive(Debug, Drop)]
pub struct FunHead {
    pub home: Name,
    pub site: u32,
    pub arity: u32,
}

/// A number and `>`.
#[tactic(auto, unfolding(crate::specs::TermGrammar::number_in))]
pub(crate) fn number_in(cs: &[char], bound: u128) -> Result<(u64, &[char]), Unread>
    requires { bound ≤ 2 ^ 64 }
    ensures value { Gives (λ found. (found.0, found.1.now)) result (number_in bound cs.now) }
    ensures fits { IfOk result (λ found. length found.1.now < length cs.now) }
{
    let (number, rest) = number_at(cs, bound)?;
    let rest = expect(rest, b">")?;
    Ok((number, rest))
}

fn half(cs: &[char]) -> Result<(u32, &[char]), Unread>
    ensures value { Gives (λ found. (found.0, found.1.now)) result (number_at (2 ^ 32) cs.now) }
    ensures fits { IfOk result (λ found. length found.1.now < length cs.now) }
{
    let (number, rest) = number_at(cs, HALF)?;
    Ok((number as u32, rest))
}

/// An external fun behind `fun`.
#[tactic(auto, unfolding(crate::specs::TermGrammar::extern_rest, erl_term::specs::WellFormed::maps_rise))]
pub(crate) fn extern_rest(alloc: Global, cs: &[char]) -> Result<(Term, &[char]), Unread>
    ensures value { Gives (λ found. (view found.0, found.1.now)) result (extern_rest cs.now) }
    ensures well_formed { IfOk result (λ found. IsWellFormed found.0) }
    ensures fits { IfOk result (λ found. length found.1.now < length cs.now) }
{
    let (home, rest) = name_at(alloc, cs)?;
    let rest = expect(rest, b":")?;
    let (name, rest) = name_at(alloc, rest)?;
    let rest = expect(rest, b"/")?;
    let (arity, rest) = half(rest)?;
    Ok((Term::Extern(home, name, arity), rest))
}

/// A local fun behind `#Fun<`, up to its captured terms.
#[tactic(auto, unfolding(crate::specs::TermGrammar::fun_head))]
pub(crate) fn fun_head(alloc: Global, cs: &[char]) -> Result<(FunHead, &[char]), Unread>
    ensures value { Gives (λ found. (found.0, found.1.now)) result (fun_head cs.now) }
    ensures fits { IfOk result (λ found. length found.1.now < length cs.now) }
{
    let (home, rest) = name_at(alloc, cs)?;
    let rest = expect(rest, b",")?;
    let (site, rest) = half(rest)?;
    let rest = expect(rest, b",")?;
    let (arity, rest) = half(rest)?;
    let rest = expect(rest, b",")?;
    let rest = expect(rest, b"[")?;
    Ok((FunHead { home, site, arity }, rest))
}

fn class_named(word: &[char]) -> Option<Class>
    ensures { option_map class_view result ≡ class_named word.now }
{
    if is_same(b"error", word) {
        Some(Class::Error)
    } else if is_same(b"exit", word) {
        Some(Class::Exit)
    } else if is_same(b"throw", word) {
        Some(Class::Throw)
    } else {
        None
    }
}

/// The class of a raw trace and `>`.
#[tactic(auto, unfolding(crate::specs::TermGrammar::class_in))]
pub(crate) fn class_in(cs: &[char]) -> Result<(Class, &[char]), Unread>
    ensures value { Gives (λ found. (class_view found.0, found.1.now)) result (class_in cs.now) }
    ensures fits { IfOk result (λ found. length found.1.now < length cs.now) }
{
    let Some((word, rest)) = word_front(behind_blanks(cs)) else {
        return Err(Unread::Syntax);
    };
    let Some(class) = class_named(word) else {
        return Err(Unread::Syntax);
    };
    let rest = expect(rest, b">")?;
    Ok((class, rest))
}

fn fits_in(number: u8, size: u8) -> bool
    requires { size < 8 }
    ensures { result ≡ (nat_le 1 size && nat_lt number (2 ^ size)) }
{
    size >= 1 && u32::from(number) < 1u32 << size
}

/// A byte, or a number and its size in bits.
#[tactic(auto, unfolding(crate::specs::TermGrammar::part_at))]
pub(crate) fn part_at(cs: &[char]) -> Result<(Part, &[char]), Unread>
    ensures value { Gives (λ found. (found.0, found.1.now)) result (part_at cs.now) }
    ensures size { IfOk result (λ found. IsTrue (is_part found.0)) }
    ensures fits { IfOk result (λ found. length found.1.now < length cs.now) }
{
    let (number, rest) = number_at(cs, 256)?;
    let Some(later) = mark_at(rest, b":") else {
        return Ok((
            Part {
                number: number as u8,
                size: 8,
            },
            rest,
        ));
    };
    part_sized(number as u8, later)
}

fn part_sized(number: u8, cs: &[char]) -> Result<(Part, &[char]), Unread>
    ensures value { Gives (λ found. (found.0, found.1.now)) result (of_size number (number_at 8 cs.now)) }
    ensures size { IfOk result (λ found. IsTrue (is_part found.0)) }
    ensures fits { IfOk result (λ found. length found.1.now < length cs.now) }
{
    let (size, rest) = number_at(cs, 8)?;
    if !fits_in(number, size as u8) {
        return Err(Unread::Syntax);
    }
    Ok((
        Part {
            number,
            size: size as u8,
        },
        rest,
    ))
}
