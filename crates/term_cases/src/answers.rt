// A row is the name of a listed function and, each behind a bar, the texts of its arguments. Shown is what the function
// answers in the process with the pid 3, and what folding gives.
ghost use Rattle.std.specs.Prelude.{IfOk, All};
ghost use Rattle.erl_term.specs.WellFormed.{IsWellFormed};
ghost use Rattle.bif_answer.specs.Answers.{Holds};

use bif_answer::{BifAnswer, answer, fold};
use bif_table::{Bif, lookup};
use case_rows::{bytes_of, show_term};
use erl_base::{FunKey, List, Name};
use erl_term::{Class, Term, Terms};
use std::alloc::Global;
use std::test::Fail;
use term_read::read_term;

/// The terms that texts are.
fn terms_of(alloc: Global, texts: &str) -> Result<Terms, Fail>
    ensures { IfOk result (λ terms. All IsWellFormed terms) }
{
    let mut terms = List::new(alloc);
    for text in texts.split(" | ") {
        if !text.is_empty() {
            let bytes = bytes_of(alloc, text)?;
            terms.push(read_term(alloc, bytes.as_slice())?)?;
        }
    }
    Ok(terms)
}

fn show_answer(rt: &HostRuntime, answer: &BifAnswer<Term>) -> Result<(), Fail>
    requires { Holds IsWellFormed answer.now }
{
    match answer {
        BifAnswer::Value(term) => show_term(rt, "    value", term),
        BifAnswer::Raises(Class::Error, reason) => show_term(rt, "    raises error", reason),
        BifAnswer::Raises(Class::Exit, reason) => show_term(rt, "    raises exit", reason),
        BifAnswer::Raises(Class::Throw, reason) => show_term(rt, "    raises throw", reason),
        BifAnswer::Wide => Ok(println!(rt; "    wide")?),
    }
}

fn show_folded(rt: &HostRuntime, bif: Bif, args: &[Term]) -> Result<(), Fail>
    requires { All IsWellFormed args.now }
{
    if bif == Bif::OwnPid || bif.arity() as usize != args.len() {
        return Ok(());
    }
    match fold(rt.alloc(), bif, args)? {
        Some(term) => show_term(rt, "    folded", &term),
        None => Ok(println!(rt; "    not folded")?),
    }
}

#[tactic(auto, unfolding(erl_term::specs::WellFormed::maps_rise))]
fn own_pid() -> Term
    ensures { IsWellFormed result }
{
    Term::Pid(3)
}

pub fn show(rt: &HostRuntime, row: &str) -> Result<(), Fail> {
    let alloc = rt.alloc();
    let (name, texts) = row.split_once(" | ").unwrap_or((row, ""));
    let args = terms_of(alloc, texts)?;
    let key = FunKey {
        name: Name::from_text(alloc, name)?,
        arity: (args.len() & 255) as u32,
    };
    let Some(bif) = lookup(&key) else {
        return Ok(println!(rt; "    not listed")?);
    };
    if bif.arity() as usize == args.len() {
        let answered = answer(alloc, bif, &own_pid(), args.as_slice())?;
        show_answer(rt, &answered)?;
    }
    show_folded(rt, bif, args.as_slice())
}
