// The assembly of a plain module.
ghost use Rattle.std.specs.Prelude.{◌≡◌, ◌≤◌, ◌<◌, ◌+◌, ◌*◌, [], ◌∷◌, ◌++◌, length, map, IfOk, OnOk, if◌then◌else◌};
ghost use Rattle.erl_term.specs.View as Terms;
ghost use Rattle.core_form.specs.View.{view, def_view, defs};
ghost use Rattle.core_form.specs.View as Tree;
ghost use Rattle.beam_table.specs.View.{insn_view, fun_view, module_view, source_view};
ghost use Rattle.erl_base.specs.Names.{is_key};
ghost use Rattle.behaviour.specs.Called.{each_once};
ghost use Rattle.pass_line.specs.PlainModule.{most_functions};
ghost use Rattle.pass_line.specs.PlainCode.{index_of, gives, gives_parameter, gives_literal, gives_body, code, function, functions, assembly};

use crate::plain::is_same;
use beam_table::{AsmFun, AsmFuns, AsmModule, FunKeys, Insn, Insns, Reg, Source};
use core_form::{Binders, Def, Expr, ExprForm, FunName, Module};
use erl_base::{Duplicate, FunKey, LabelId, List, Name, NoMemory};
use erl_term::Term;
use key_set::KeySet;
use std::alloc::Global;

// The number of the parameter, or that of all parameters where it is none.
fn index_of(name: &Name, xs: &Binders) -> u32
    ensures { result ≡ index_of name.now xs.now }
{
    let count = xs.len() as u32;
    let items = xs.as_slice();
    for (i, x) in items.iter().enumerate() {
        if is_same(name, &x.name) {
            return i as u32;
        }
    }
    count
}

fn gives(alloc: Global, source: Source) -> Result<Insns, NoMemory>
    ensures { IfOk result (λ code. map insn_view code ≡ gives (source_view source)) }
{
    let mut code = List::new(alloc);
    code.push(Insn::Move(source, Reg::X(0)))?;
    code.push(Insn::Return)?;
    Ok(code)
}

fn gives_parameter(alloc: Global, number: u32) -> Result<Insns, NoMemory>
    ensures { IfOk result (λ code. map insn_view code ≡ gives_parameter number) }
{
    if number == 0 {
        let mut code = List::new(alloc);
        code.push(Insn::Return)?;
        return Ok(code);
    }
    gives(alloc, Source::Reg(Reg::X(number)))
}

// A list without items is its tail.
fn gives_literal(alloc: Global, term: &Term) -> Result<Insns, NoMemory>
    ensures { IfOk result (λ code. map insn_view code ≡ gives_literal (Terms.view term.now)) }
{
    match term {
        Term::Int(number) => gives(alloc, Source::Integer(*number)),
        Term::Atom(name) => gives(alloc, Source::Atom(name.copy(alloc)?)),
        Term::Nil => Ok(List::new(alloc)),
        Term::List(items, tail) => {
            if items.is_empty() {
                gives_literal(alloc, tail.get())
            } else {
                Ok(List::new(alloc))
            }
        }
        Term::Tuple(_) => Ok(List::new(alloc)),
        Term::Map(_) => Ok(List::new(alloc)),
        Term::Bits(_) => Ok(List::new(alloc)),
        Term::Fun(_, _, _, _) => Ok(List::new(alloc)),
        Term::Extern(_, _, _) => Ok(List::new(alloc)),
        Term::Pid(_) => Ok(List::new(alloc)),
        Term::Reference(_) => Ok(List::new(alloc)),
        Term::Port(_) => Ok(List::new(alloc)),
        Term::RawTrace(_) => Ok(List::new(alloc)),
    }
}

fn gives_body(alloc: Global, xs: &Binders, body: &Expr) -> Result<Insns, NoMemory>
    ensures { IfOk result (λ code. map insn_view code ≡ gives_body xs.now (view body.now)) }
{
    if let ExprForm::Var(x) = &body.form {
        return gives_parameter(alloc, index_of(x, xs));
    }
    if let ExprForm::Literal(term) = &body.form {
        return gives_literal(alloc, term);
    }
    Ok(List::new(alloc))
}

fn code(alloc: Global, fun: &Expr) -> Result<Insns, NoMemory>
    ensures { IfOk result (λ made. map insn_view made ≡ code (view fun.now)) }
{
    let ExprForm::Fun(xs, body) = &fun.form else {
        return Ok(List::new(alloc));
    };
    gives_body(alloc, xs, body.get())
}

fn function(alloc: Global, number: u32, def: &Def) -> Result<AsmFun, NoMemory>
    requires { number < most_functions }
    ensures { IfOk result (λ made. fun_view made ≡ function number (def_view def.now)) }
{
    let code = code(alloc, &def.fun)?;
    Ok(AsmFun {
        key: def.key.copy(alloc)?,
        info: LabelId(2 * number + 1),
        entry: LabelId(2 * number + 2),
        code,
    })
}

fn functions(alloc: Global, ds: &[Def]) -> Result<AsmFuns, NoMemory>
    requires { length ds.now ≤ most_functions }
    ensures { IfOk result (λ made. map fun_view made ≡ functions 0 (defs (map def_view ds.now))) }
{
    let mut made = List::new(alloc);
    let mut number = 0;
    for def in ds {
        made.push(function(alloc, number, def)?)?;
        number += 1;
    }
    Ok(made)
}

// Adds the key to the set, and to the list where it is a new one.
fn add(alloc: Global, known: &mut KeySet, made: &mut FunKeys, key: &FunKey) -> Result<(), NoMemory>
    requires { known.old ≡ made.old }
    ensures same { OnOk result (known.new ≡ made.new) }
    ensures added { OnOk result (made.new ≡ (if is_key key.now made.old then made.old else made.old ++ key.now ∷ [])) }
{
    if known.insert(alloc, key)? {
        made.push(key.copy(alloc)?)?;
        return Ok(());
    }
    Ok(())
}

fn exports(alloc: Global, names: &[FunName]) -> Result<FunKeys, NoMemory>
    ensures { IfOk result (λ made. made ≡ each_once (map (λ f. f.key) names.now)) }
{
    let mut known = KeySet::new(alloc);
    let mut made = List::new(alloc);
    for name in names {
        add(alloc, &mut known, &mut made, &name.key)?;
    }
    Ok(made)
}

/// The assembly of the module.
pub fn assembly(alloc: Global, tree: &Module) -> Result<AsmModule, NoMemory>
    requires { length tree.now.defs ≤ most_functions }
    ensures { IfOk result (λ made. module_view made ≡ assembly (Tree.module_view tree.now)) }
{
    let name = tree.name.copy(alloc)?;
    let exports = exports(alloc, tree.exports.as_slice())?;
    let attributes = tree.attributes.copy(alloc)?;
    let funs = functions(alloc, tree.defs.as_slice())?;
    Ok(AsmModule {
        name,
        exports,
        attributes,
        funs,
    })
}
