// A row is the text of a term. Shown is what comes of its value, whose parts are shared: the term again, how deep it
// nests, how it compares with `[b]`; and by kind what calls make of its parts.
ghost use Rattle.std.specs.Prelude.{IfOk, All};
ghost use Rattle.shared_term.specs.View.{IsWhole};

use case_rows::{bytes_of, show_term};
use erl_base::{List, NoMemory};
use shared_term::{Value, compare, cons, extern_value, from_term, fun_value, put, to_term, tuple};
use std::alloc::Global;
use std::test::Fail;
use term_read::read_term;

/// The value of the term that a text is.
fn value_of(alloc: Global, text: &[u8]) -> Result<Value, Fail>
    ensures { IfOk result IsWhole }
{
    let term = read_term(alloc, text)?;
    Ok(from_term(alloc, &term)?)
}

/// The values, each held once more.
fn shared(alloc: Global, values: &[Value]) -> Result<List<Value>, NoMemory>
    requires { All IsWhole values.now }
    ensures { IfOk result (λ copies. All IsWhole copies) }
{
    let mut copies = List::new(alloc);
    for value in values {
        copies.push(value.share()?)?;
    }
    Ok(copies)
}

fn show_value(rt: &HostRuntime, what: &str, value: &Value) -> Result<(), Fail>
    requires { IsWhole value.now }
{
    let term = to_term(rt.alloc(), value)?;
    print!(rt; "    {what}")?;
    show_term(rt, "", &term)
}

fn show_list(rt: &HostRuntime, value: &Value) -> Result<(), Fail>
    requires { IsWhole value.now }
{
    let Some(head) = value.head() else {
        return Ok(());
    };
    let Some(tail) = value.tail() else {
        return Ok(());
    };
    let again = cons(rt.alloc(), head.share()?, tail.share()?)?;
    show_value(rt, "of its head and tail", &again)
}

fn show_tuple(rt: &HostRuntime, value: &Value) -> Result<(), Fail>
    requires { IsWhole value.now }
{
    let alloc = rt.alloc();
    let Some(elements) = value.elements() else {
        return Ok(());
    };
    let again = tuple(alloc, shared(alloc, elements)?)?;
    show_value(rt, "of its elements", &again)?;
    let count = value.tuple_len().unwrap_or(0);
    println!(rt; "    {count} elements")?;
    match value.element(1) {
        Some(second) => show_value(rt, "second", second),
        None => Ok(println!(rt; "    no second")?),
    }
}

fn show_map(rt: &HostRuntime, value: &Value) -> Result<(), Fail>
    requires { IsWhole value.now }
{
    let alloc = rt.alloc();
    let key = value_of(alloc, b"a")?;
    let new = value_of(alloc, b"new")?;
    let Some(map) = put(alloc, value, key.share()?, new)? else {
        return Ok(());
    };
    show_at_key(rt, "had at a", value, &key)?;
    show_value(rt, "with new put at a", &map)?;
    show_at_key(rt, "has at a", &map, &key)
}

fn show_at_key(rt: &HostRuntime, what: &str, map: &Value, key: &Value) -> Result<(), Fail>
    requires map { IsWhole map.now }
    requires key { IsWhole key.now }
{
    match map.get(key) {
        Some(found) => show_value(rt, what, found),
        None => Ok(println!(rt; "    {what} nothing")?),
    }
}

fn show_bits(rt: &HostRuntime, value: &Value, from: u64, length: u64) -> Result<(), Fail>
    requires { IsWhole value.now }
{
    match value.slice(from, length)? {
        Some(part) => {
            println!(rt; "    {length} bits from {from} on")?;
            show_value(rt, "are", &part)
        }
        None => Ok(()),
    }
}

fn show_fun(rt: &HostRuntime, value: &Value) -> Result<(), Fail>
    requires { IsWhole value.now }
{
    let alloc = rt.alloc();
    if let Value::Extern(fun) = value {
        let again = extern_value(
            alloc,
            fun.module.copy(alloc)?,
            fun.name.copy(alloc)?,
            fun.arity,
        )?;
        show_value(rt, "of its module, name and arity", &again)?;
    }
    if let Value::Fun(fun) = value {
        let Some(captured) = value.captured() else {
            return Ok(());
        };
        let captured = shared(alloc, captured)?;
        let again = fun_value(
            alloc,
            fun.module.copy(alloc)?,
            fun.site,
            fun.arity,
            captured,
        )?;
        show_value(rt, "of what it captured", &again)?;
    }
    Ok(())
}

pub fn show(rt: &HostRuntime, row: &str) -> Result<(), Fail> {
    let alloc = rt.alloc();
    let bytes = bytes_of(alloc, row)?;
    let value = value_of(alloc, bytes.as_slice())?;
    show_value(rt, "again", &value)?;
    println!(rt; "    depth {}", value.depth())?;
    let other = value_of(alloc, b"[b]")?;
    println!(rt; "    with [b]: {:?}", compare(&value, &other))?;
    show_list(rt, &value)?;
    show_tuple(rt, &value)?;
    show_map(rt, &value)?;
    show_bits(rt, &value, 3, 5)?;
    show_bits(rt, &value, 5, 6)?;
    show_fun(rt, &value)
}
