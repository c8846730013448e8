// Of core_actions: each node is made when there is memory.
ghost use Rattle.std.specs.Prelude.{IfOk, IsTrue};
ghost use Rattle.core_actions.specs.View.{parts_sound};

use core_actions::{
    ReadExpr, ReadPattern, SegmentParts, binary_of, closed, closed_pattern, list_before,
    list_before_pattern, map_of_pairs, seg_pattern_of, segment_of, tuple_of, tuple_of_patterns,
    with_bits,
};
use core_form::{ExprForm, PatternForm};
use core_lex::Codes;
use erl_base::{List, Name, NoMemory, Place};
use erl_term::Term;
use std::alloc::Global;
use std::test::Fail;

const HERE: Place = Place { line: 1, column: 2 };

// "ab"
fn text(alloc: Global) -> Result<Codes, NoMemory> {
    let mut codes = List::new(alloc);
    codes.push(97)?;
    codes.push(98)?;
    Ok(codes)
}

// "ab" as the tail of a list without items.
fn listed(alloc: Global) -> Result<usize, NoMemory> {
    let tail = ReadExpr::Characters(HERE, text(alloc)?);
    let read = list_before(alloc, HERE, List::new(alloc), tail)?;
    let made = closed(alloc, read)?;
    match &made.form {
        ExprForm::Literal(Term::List(items, _)) => Ok(items.len()),
        _ => Ok(0),
    }
}

// The same as a pattern.
fn listed_pattern(alloc: Global) -> Result<usize, NoMemory> {
    let tail = ReadPattern::Characters(HERE, text(alloc)?);
    let read = list_before_pattern(alloc, HERE, List::new(alloc), tail)?;
    let made = closed_pattern(alloc, read)?;
    match &made.form {
        PatternForm::Literal(Term::List(items, _)) => Ok(items.len()),
        _ => Ok(0),
    }
}

fn is_tuple(alloc: Global) -> Result<bool, NoMemory> {
    let made = tuple_of(alloc, HERE, List::new(alloc))?;
    Ok(matches!(&made.form, ExprForm::Literal(Term::Tuple(_))))
}

fn is_tuple_pattern(alloc: Global) -> Result<bool, NoMemory> {
    let made = tuple_of_patterns(alloc, HERE, List::new(alloc))?;
    Ok(matches!(&made.form, PatternForm::Literal(Term::Tuple(_))))
}

fn is_map(alloc: Global) -> Result<bool, NoMemory> {
    let made = map_of_pairs(alloc, HERE, List::new(alloc))?;
    Ok(matches!(&made.form, ExprForm::Literal(Term::Map(_))))
}

// 8 bits
fn octet(alloc: Global) -> Result<SegmentParts, NoMemory>
    ensures { IfOk result (λ parts. IsTrue (parts_sound parts)) }
{
    let kind = Name::from_text(alloc, "integer")?;
    Ok(SegmentParts {
        size: ReadExpr::Integer(HERE, 8),
        unit: ReadExpr::Integer(HERE, 1),
        kind,
        flags: ReadExpr::Items(HERE, List::new(alloc), None),
    })
}

// Twice the eight bits of 1.
fn binary_bits(alloc: Global) -> Result<u64, NoMemory> {
    let first = segment_of(alloc, HERE, ReadExpr::Integer(HERE, 1), octet(alloc)?)?;
    let second = segment_of(alloc, HERE, ReadExpr::Integer(HERE, 1), octet(alloc)?)?;
    let bits = with_bits(first.bits, second.bits)?;
    let made = binary_of(alloc, HERE, List::new(alloc), bits)?;
    match &made.form {
        ExprForm::Literal(Term::Bits(bits)) => Ok(bits.length),
        _ => Ok(0),
    }
}

fn pattern_column(alloc: Global) -> Result<u64, NoMemory> {
    let value = ReadPattern::Characters(HERE, text(alloc)?);
    let made = seg_pattern_of(alloc, HERE, value, octet(alloc)?)?;
    Ok(made.place.column)
}

#[test]
fn lists_are_made(rt: HostRuntime) -> Result<(), Fail> {
    assert_eq!(rt; listed(rt.alloc())?, 2);
    assert_eq!(rt; listed_pattern(rt.alloc())?, 2);
    Ok(())
}

#[test]
fn tuples_and_maps_are_made(rt: HostRuntime) -> Result<(), Fail> {
    assert!(rt; is_tuple(rt.alloc())?);
    assert!(rt; is_tuple_pattern(rt.alloc())?);
    assert!(rt; is_map(rt.alloc())?);
    Ok(())
}

#[test]
fn binaries_are_made(rt: HostRuntime) -> Result<(), Fail> {
    assert_eq!(rt; binary_bits(rt.alloc())?, 16);
    assert_eq!(rt; pattern_column(rt.alloc())?, 2);
    Ok(())
}
