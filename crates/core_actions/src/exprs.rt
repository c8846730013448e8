// Expressions that were read.
ghost use Rattle.std.specs.Prelude.{◌≡◌, map, IfOk, IsTrue};
ghost use Rattle.std.specs.Option.{option_map};
ghost use Rattle.core_form.specs.View.{view, exprs};
ghost use Rattle.core_actions.specs.Joining.{closed, joined, added, behind};
ghost use Rattle.core_actions.specs.SoundTerms.{all_sound, expr_sound};
ghost use Rattle.core_actions.specs.View.{all_items, end_sound, read_view, read_sound};

use crate::lists::{closed_list, code_literals, codes_term, integer, literal};
use crate::rows::{gathered, with_row};
use core_form::{Expr, ExprForm, Exprs};
use core_lex::Codes;
use erl_base::{Boxed, List, NoMemory, Place};
use std::alloc::Global;

/// An expression that was read. What may be the tail of a list keeps its items, in rows, the last of them first.
#[derive(Drop)]
pub enum ReadExpr {
    Whole(Expr),
    Integer(Place, i128),
    WideInteger(Place),
    Characters(Place, Codes),
    Items(Place, List<Exprs>, Option<Boxed<Expr>>),
}

/// The expression, where it is no tail: a list is one literal where all its items and what is behind them are.
pub fn closed(alloc: Global, read: ReadExpr) -> Result<Expr, NoMemory>
    requires { IsTrue (read_sound read) }
    ensures value { IfOk result (λ made. view made ≡ closed (read_view read)) }
    ensures sound { IfOk result (λ made. IsTrue (expr_sound made)) }
{
    match read {
        ReadExpr::Whole(expr) => Ok(expr),
        ReadExpr::Integer(place, number) => Ok(integer(place, number)),
        ReadExpr::WideInteger(place) => Ok(integer(place, 0)),
        ReadExpr::Characters(place, codes) => Ok(literal(place, codes_term(alloc, codes)?)),
        ReadExpr::Items(place, rows, end) => closed_list(alloc, place, gathered(alloc, rows)?, end),
    }
}

/// The list of these items before a tail, whose own items it has too.
pub fn list_before(
    alloc: Global,
    place: Place,
    items: Exprs,
    tail: ReadExpr,
) -> Result<ReadExpr, NoMemory>
    requires items { IsTrue (all_sound (map expr_sound items)) }
    requires tail { IsTrue (read_sound tail) }
    ensures value { IfOk result (λ made. read_view made ≡ joined place (exprs (map view items)) (read_view tail)) }
    ensures sound { IfOk result (λ made. IsTrue (read_sound made)) }
{
    let (rows, end) = tail_parts(alloc, tail)?;
    Ok(ReadExpr::Items(place, with_row(rows, items)?, end))
}

/// The items that a tail adds to its list, and what is behind them.
#[tactic(auto, using(crate::proofs::Appending::before_nothing))]
fn tail_parts(alloc: Global, tail: ReadExpr) -> Result<(List<Exprs>, Option<Boxed<Expr>>), NoMemory>
    requires { IsTrue (read_sound tail) }
    ensures items { IfOk result (λ parts. exprs (map view (all_items parts.0)) ≡ added (read_view tail)) }
    ensures end { IfOk result (λ parts. option_map view parts.1 ≡ behind (read_view tail)) }
    ensures sound_items { IfOk result (λ parts. IsTrue (all_sound (map expr_sound (all_items parts.0)))) }
    ensures sound_end { IfOk result (λ parts. IsTrue (end_sound parts.1)) }
{
    match tail {
        ReadExpr::Items(_, rows, end) => Ok((rows, end)),
        ReadExpr::Characters(at, codes) => {
            let items = code_literals(alloc, at, codes.as_slice())?;
            Ok((with_row(List::new(alloc), items)?, None))
        }
        ReadExpr::Whole(expr) => Ok((List::new(alloc), Some(Boxed::new(alloc, expr)?))),
        ReadExpr::Integer(place, number) => {
            let end = integer(place, number);
            Ok((List::new(alloc), Some(Boxed::new(alloc, end)?)))
        }
        ReadExpr::WideInteger(place) => {
            let end = integer(place, 0);
            Ok((List::new(alloc), Some(Boxed::new(alloc, end)?)))
        }
    }
}
