// Terms as values whose parts are shared: made and made terms again, compared, and gone along. The walk and the sums
// go along the list from its beginning again at its end, so that they take as many steps whatever its length.
ghost use Rattle.shared_term.specs.View.{IsWhole};

use crate::clock::Clock;
use bif_answer::{BifAnswer, answer_values};
use bif_table::Bif;
use erl_base::NoMemory;
use shared_term::{Value, from_term, to_term};
use std::alloc::Global;
use std::test::Fail;
use term_read::read_term;

/// How many steps are made.
const STEPS: usize = 1_000_000;

/// The next cell of a list, or its first one behind its end.
fn along<'a>(list: &'a Value, at: &'a Value) -> &'a Value
    requires list { IsWhole list.now }
    requires at { IsWhole at.now }
    ensures { IsWhole result.now }
{
    match at.tail() {
        Some(rest) => rest,
        None => list,
    }
}

/// How many of the steps found an item.
fn walk(list: &Value) -> usize
    requires { IsWhole list.now }
{
    let mut at = list;
    let mut found: usize = 0;
    for _ in 0..STEPS {
        if at.head().is_some() {
            found = found.wrapping_add(1);
        }
        at = along(list, at);
    }
    found
}

/// The sum of integers along a list, by checked additions.
fn sum_checked(list: &Value) -> Option<i128>
    requires { IsWhole list.now }
{
    let mut at = list;
    let mut sum: i128 = 0;
    for _ in 0..STEPS {
        if let Some(Value::Int(number)) = at.head() {
            sum = sum.checked_add(*number)?;
        }
        at = along(list, at);
    }
    Some(sum)
}

/// The same by the listed function `+`.
fn sum_answered(alloc: Global, list: &Value) -> Result<Option<i128>, NoMemory>
    requires { IsWhole list.now }
{
    let mut at = list;
    let mut sum: i128 = 0;
    for _ in 0..STEPS {
        if let Some(number) = at.head() {
            match added(alloc, sum, number)? {
                Some(new) => sum = new,
                None => return Ok(None),
            }
        }
        at = along(list, at);
    }
    Ok(Some(sum))
}

#[tactic(auto, unfolding(erl_term::specs::WellFormed::maps_rise))]
fn integer(number: i128) -> Value
    ensures { IsWhole result }
{
    Value::Int(number)
}

fn added(alloc: Global, sum: i128, number: &Value) -> Result<Option<i128>, NoMemory>
    requires { IsWhole number.now }
{
    let args = [integer(sum), number.share()?];
    match &answer_values(alloc, Bif::Add, number, &args)? {
        BifAnswer::Value(Value::Int(new)) => Ok(Some(*new)),
        BifAnswer::Value(_) | BifAnswer::Raises(_, _) | BifAnswer::Wide => Ok(None),
    }
}

pub fn measure(rt: &HostRuntime, clock: &mut Clock, text: &[u8]) -> Result<(), Fail> {
    let alloc = rt.alloc();
    let term = read_term(alloc, text)?;
    clock.tell(rt, "read")?;
    let _copy = term.copy(alloc)?;
    clock.tell(rt, "copy")?;
    let value = from_term(alloc, &term)?;
    clock.tell(rt, "from_term")?;
    let again = to_term(alloc, &value)?;
    clock.tell(rt, "to_term")?;
    let terms = erl_term::compare(&term, &again);
    clock.tell(rt, "compare_terms")?;
    let other = from_term(alloc, &again)?;
    clock.tell(rt, "from_term_again")?;
    let values = shared_term::compare(&value, &other);
    clock.tell(rt, "compare_values")?;
    let found = walk(&value);
    clock.tell(rt, "walk")?;
    let checked = sum_checked(&value);
    clock.tell(rt, "sum_checked")?;
    let answered = sum_answered(alloc, &value)?;
    clock.tell(rt, "sum_answered")?;
    println!(rt; "{terms:?} {values:?} {found} {checked:?} {answered:?}")?;
    Ok(())
}
