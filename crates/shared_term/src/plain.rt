// Terms that are put together of well-formed parts.
ghost use Rattle.std.specs.Prelude.{◌≡◌, ◌<◌, IfOk, All, IsTrue, map, not, length};
ghost use Rattle.erl_term.specs.Comparing.{row, pair_row};
ghost use Rattle.erl_term.specs.Term as P;
ghost use Rattle.erl_term.specs.Terms.{list_of};
ghost use Rattle.erl_term.specs.View.{view};
ghost use Rattle.erl_term.specs.WellFormed.{layout, pairs_rise, IsWellFormed};
ghost use Rattle.erl_term.specs.WellRows.{IsPairWellFormed};

use erl_base::{Boxed, Name, NoMemory, SiteId};
use erl_term::{Pairs, Term, Terms};
use std::alloc::Global;

/// The list of these items, and behind them what is no list with items.
#[tactic(auto, using(crate::proofs::Terms::list_made))]
pub fn list_term(alloc: Global, items: Terms, tail: Term) -> Result<Term, NoMemory>
    requires items { All IsWellFormed items }
    requires some { 0 < length items }
    requires tail { IsWellFormed tail }
    requires no_list { IsTrue (not (layout tail).listed) }
    ensures same { IfOk result (λ term. view term ≡ list_of (map view items) (view tail)) }
    ensures well_formed { IfOk result IsWellFormed }
{
    Ok(Term::List(items, Boxed::new(alloc, tail)?))
}

/// The tuple of these elements.
#[tactic(auto, using(crate::proofs::Terms::tuple_made))]
pub fn tuple_term(items: Terms) -> Term
    requires { All IsWellFormed items }
    ensures same { view result ≡ P.tuple (row items) }
    ensures well_formed { IsWellFormed result }
{
    Term::Tuple(items)
}

/// The map of these pairs.
#[tactic(auto, using(crate::proofs::Terms::map_made))]
pub fn map_term(pairs: Pairs) -> Term
    requires pairs { All IsPairWellFormed pairs }
    requires rising { IsTrue (pairs_rise (pair_row pairs)) }
    ensures same { view result ≡ P.map (pair_row pairs) }
    ensures well_formed { IsWellFormed result }
{
    Term::Map(pairs)
}

/// The fun of a module, with its site, its arity and what it captured.
#[tactic(auto, using(crate::proofs::Terms::fun_made))]
pub fn fun_term(module: Name, site: SiteId, arity: u32, captured: Terms) -> Term
    requires { All IsWellFormed captured }
    ensures same { view result ≡ P.fun «module» site.0 arity (row captured) }
    ensures well_formed { IsWellFormed result }
{
    Term::Fun(module, site, arity, captured)
}
