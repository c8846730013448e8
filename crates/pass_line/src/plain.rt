// Which modules are plain.
ghost use Rattle.std.specs.Prelude.{◌≡◌, ◌↔◌, [], map, true, false, IfOk, MatchOption, IsTrue};
ghost use Rattle.erl_base.specs.Names.{same_name};
ghost use Rattle.erl_term.specs.View as Terms;
ghost use Rattle.core_form.specs.View.{view, def_view, defs, module_view};
ghost use Rattle.erl_term.specs.Ranges.{is_within_128};
ghost use Rattle.pass_line.specs.PlainModule.{is_plain_atom, is_bound, are_distinct, is_plain_literal, is_plain_body, is_plain_def, are_plain, keys_of, are_new, are_known, IsPlain};

use crate::spelling::characters_of;
use core_form::{Binder, Def, Expr, ExprForm, FunName, Module};
use erl_base::{Name, NoMemory};
use erl_term::Term;
use key_set::KeySet;
use std::alloc::Global;
use term_text::is_plain_name;

/// The most parameters of a function.
pub const MOST_ARITY: u32 = 255;
// The most characters of an atom.
const MOST_CHARACTERS: usize = 255;
// The most functions of a module.
const MOST_FUNCTIONS: usize = 20000;

fn is_plain_atom(alloc: Global, name: &Name) -> Result<bool, NoMemory>
    ensures { IfOk result (λ plain. plain ≡ is_plain_atom name.now) }
{
    let characters = characters_of(alloc, name)?;
    Ok(is_plain_name(characters.as_slice()) && characters.len() <= MOST_CHARACTERS)
}

pub fn is_same(name: &Name, other: &Name) -> bool
    ensures { result ≡ same_name name.now other.now }
{
    name.is(other)
}

fn is_bound(name: &Name, xs: &[Binder]) -> bool
    ensures { result ≡ is_bound name.now xs.now }
{
    for x in xs {
        if is_same(name, &x.name) {
            return true;
        }
    }
    false
}

fn are_distinct(xs: &[Binder]) -> bool
    ensures { result ≡ are_distinct xs.now }
{
    let mut rest = xs;
    while let [x, later @ ..] = rest {
        if is_bound(&x.name, later) {
            return false;
        }
        rest = later;
    }
    true
}

// The type holds no integer past 128 signed bits.
fn is_within(_number: i128) -> bool
    ensures { result ≡ is_within_128 _number }
{
    true
}

// A list without items is its tail.
fn is_plain_literal(alloc: Global, term: &Term) -> Result<bool, NoMemory>
    ensures { IfOk result (λ plain. plain ≡ is_plain_literal (Terms.view term.now)) }
{
    match term {
        Term::Int(number) => Ok(is_within(*number)),
        Term::Atom(name) => is_plain_atom(alloc, name),
        Term::Nil => Ok(false),
        Term::List(items, tail) => {
            if items.is_empty() {
                is_plain_literal(alloc, tail.get())
            } else {
                Ok(false)
            }
        }
        Term::Tuple(_) => Ok(false),
        Term::Map(_) => Ok(false),
        Term::Bits(_) => Ok(false),
        Term::Fun(_, _, _, _) => Ok(false),
        Term::Extern(_, _, _) => Ok(false),
        Term::Pid(_) => Ok(false),
        Term::Reference(_) => Ok(false),
        Term::Port(_) => Ok(false),
        Term::RawTrace(_) => Ok(false),
    }
}

fn is_plain_body(alloc: Global, xs: &[Binder], body: &Expr) -> Result<bool, NoMemory>
    ensures { IfOk result (λ plain. plain ≡ is_plain_body xs.now (view body.now)) }
{
    if let ExprForm::Var(x) = &body.form {
        return Ok(is_bound(x, xs));
    }
    if let ExprForm::Literal(term) = &body.form {
        return is_plain_literal(alloc, term);
    }
    Ok(false)
}

fn is_plain_def(alloc: Global, def: &Def) -> Result<bool, NoMemory>
    ensures { IfOk result (λ plain. plain ≡ is_plain_def (def_view def.now)) }
{
    let ExprForm::Fun(xs, body) = &def.fun.form else {
        return Ok(false);
    };
    if def.key.arity > MOST_ARITY || def.key.arity as usize != xs.len() {
        return Ok(false);
    }
    if !are_distinct(xs.as_slice()) {
        return Ok(false);
    }
    if !is_plain_atom(alloc, &def.key.name)? {
        return Ok(false);
    }
    is_plain_body(alloc, xs.as_slice(), body.get())
}

fn are_plain(alloc: Global, ds: &[Def]) -> Result<bool, NoMemory>
    ensures { IfOk result (λ plain. plain ≡ are_plain (defs (map def_view ds.now))) }
{
    for def in ds {
        if !is_plain_def(alloc, def)? {
            return Ok(false);
        }
    }
    Ok(true)
}

// The keys of the definitions, where each is a new one.
fn keys(alloc: Global, ds: &[Def]) -> Result<Option<KeySet>, NoMemory>
    ensures { IfOk result (λ found. MatchOption found (are_new [] (keys_of (defs (map def_view ds.now))) ≡ false)
        (λ known. (are_new [] (keys_of (defs (map def_view ds.now))) ≡ true)
        × (known ≡ keys_of (defs (map def_view ds.now))))) }
{
    let mut known = KeySet::new(alloc);
    for def in ds {
        if !known.insert(alloc, &def.key)? {
            return Ok(None);
        }
    }
    Ok(Some(known))
}

fn are_known(known: &KeySet, exports: &[FunName]) -> bool
    ensures { result ≡ are_known known.now exports.now }
{
    for export in exports {
        if !known.contains(&export.key) {
            return false;
        }
    }
    true
}

/// Whether the module is plain.
pub fn is_plain(alloc: Global, tree: &Module) -> Result<bool, NoMemory>
    ensures { IfOk result (λ plain. IsTrue plain ↔ IsPlain (module_view tree.now)) }
{
    if tree.defs.len() > MOST_FUNCTIONS {
        return Ok(false);
    }
    if !tree.attributes.is_empty() {
        return Ok(false);
    }
    if !is_plain_atom(alloc, &tree.name)? {
        return Ok(false);
    }
    if !are_plain(alloc, tree.defs.as_slice())? {
        return Ok(false);
    }
    match keys(alloc, tree.defs.as_slice())? {
        None => Ok(false),
        Some(known) => Ok(are_known(&known, tree.exports.as_slice())),
    }
}
