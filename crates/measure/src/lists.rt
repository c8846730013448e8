// Lists in a list, each gone along once.
ghost use Rattle.shared_term.specs.View.{IsWhole};

use crate::clock::Clock;
use shared_term::{Value, from_term};
use std::test::Fail;
use term_read::read_term;

/// A step more than each of a million cells in a thousand lists takes.
const STEPS: usize = 1_001_001;

/// The lists that are left and the next cell: the tail, behind a list's end the next list, and then again the last.
fn next<'a>(lists: &'a Value, at: &'a Value) -> (&'a Value, &'a Value)
    requires lists { IsWhole lists.now }
    requires at { IsWhole at.now }
    ensures { IsWhole result.0.now × IsWhole result.1.now }
{
    if let Some(rest) = at.tail() {
        return (lists, rest);
    }
    let Some(others) = lists.tail() else {
        return (lists, at);
    };
    match others.head() {
        Some(first) => (others, first),
        None => (others, at),
    }
}

/// How many of the steps found an item.
fn walk(lists: &Value) -> usize
    requires { IsWhole lists.now }
{
    let mut lists = lists;
    let mut at = match lists.head() {
        Some(first) => first,
        None => lists,
    };
    let mut found: usize = 0;
    for _ in 0..STEPS {
        if at.head().is_some() {
            found = found.wrapping_add(1);
        }
        (lists, at) = next(lists, at);
    }
    found
}

pub fn measure(rt: &HostRuntime, clock: &mut Clock, text: &[u8]) -> Result<(), Fail> {
    let alloc = rt.alloc();
    let term = read_term(alloc, text)?;
    let lists = from_term(alloc, &term)?;
    clock.tell(rt, "from_term")?;
    let found = walk(&lists);
    clock.tell(rt, "walk")?;
    println!(rt; "{found} items")?;
    Ok(())
}
