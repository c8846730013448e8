// Of core_copy: a tree of all forms, made by the builders of core_form, is copied.
use core_copy::CoreCopy;
use core_form::build::{exprs, lists, nodes, patterns};
use core_form::{
    Binder, Binders, Clauses, Defs, Expr, ExprForm, Exprs, FunName, KeyPattern, KeyPatterns,
    MapPart, MapParts, Module, Pattern, PatternForm, Patterns, SegPattern, SegPatterns, Segment,
    Segments,
};
use erl_base::{Boxed, FunKey, List, Name, NoMemory, Place};
use erl_term::Term;
use std::alloc::Global;
use std::test::Fail;

const HERE: Place = Place { line: 1, column: 2 };

type Made<T> = Result<T, NoMemory>;

fn name(alloc: Global) -> Made<Name> {
    Name::from_text(alloc, "X")
}

fn key(alloc: Global) -> Made<FunKey> {
    Ok(FunKey {
        name: name(alloc)?,
        arity: 1,
    })
}

fn x(alloc: Global) -> Made<Boxed<Expr>> {
    exprs::var(alloc, HERE, name(alloc))
}

fn xs(alloc: Global) -> Made<Exprs> {
    lists::and_expr(Ok(List::new(alloc)), x(alloc))
}

fn vars(alloc: Global) -> Made<Binders> {
    let mut vars = List::new(alloc);
    vars.push(Binder {
        name: name(alloc)?,
        place: HERE,
    })?;
    Ok(vars)
}

fn part(alloc: Global) -> Made<Boxed<MapPart>> {
    nodes::map_part(alloc, x(alloc), x(alloc), true)
}

fn parts(alloc: Global) -> Made<MapParts> {
    lists::and_part(Ok(List::new(alloc)), part(alloc))
}

fn segment(alloc: Global) -> Made<Boxed<Segment>> {
    let unit = Ok(Term::Int(8));
    nodes::segment(
        alloc,
        HERE,
        x(alloc),
        x(alloc),
        unit,
        name(alloc),
        Ok(Term::Nil),
    )
}

fn segments(alloc: Global) -> Made<Segments> {
    lists::and_segment(Ok(List::new(alloc)), segment(alloc))
}

fn defs(alloc: Global) -> Made<Defs> {
    let right = exprs::fun(alloc, HERE, vars(alloc), x(alloc));
    lists::and_def(
        Ok(List::new(alloc)),
        nodes::def(alloc, key(alloc), HERE, right),
    )
}

fn one(alloc: Global) -> Made<Boxed<Pattern>> {
    patterns::literal(alloc, HERE, Ok(Term::Int(1)))
}

fn ones(alloc: Global) -> Made<Patterns> {
    lists::and_pattern(Ok(List::new(alloc)), one(alloc))
}

fn key_pattern(alloc: Global) -> Made<Boxed<KeyPattern>> {
    nodes::key_pattern(alloc, x(alloc), one(alloc))
}

fn keys(alloc: Global) -> Made<KeyPatterns> {
    lists::and_key(Ok(List::new(alloc)), key_pattern(alloc))
}

fn seg_pattern(alloc: Global) -> Made<Boxed<SegPattern>> {
    let unit = Ok(Term::Int(1));
    nodes::seg_pattern(
        alloc,
        HERE,
        one(alloc),
        x(alloc),
        unit,
        name(alloc),
        Ok(Term::Nil),
    )
}

fn seg_patterns(alloc: Global) -> Made<SegPatterns> {
    lists::and_seg_pattern(Ok(List::new(alloc)), seg_pattern(alloc))
}

fn all_patterns(alloc: Global) -> Made<Patterns> {
    let all = ones(alloc);
    let all = lists::and_pattern(all, patterns::var(alloc, HERE, name(alloc)));
    let all = lists::and_pattern(all, patterns::alias(alloc, HERE, name(alloc), one(alloc)));
    let all = lists::and_pattern(all, patterns::list(alloc, HERE, ones(alloc), one(alloc)));
    let all = lists::and_pattern(all, patterns::tuple(alloc, HERE, ones(alloc)));
    let all = lists::and_pattern(all, patterns::map(alloc, HERE, keys(alloc)));
    lists::and_pattern(all, patterns::binary(alloc, HERE, seg_patterns(alloc)))
}

fn clauses(alloc: Global) -> Made<Clauses> {
    let clause = nodes::clause(alloc, HERE, all_patterns(alloc), x(alloc), x(alloc));
    lists::and_clause(Ok(List::new(alloc)), clause)
}

fn data(alloc: Global) -> Made<Exprs> {
    let all = xs(alloc);
    let all = lists::and_expr(all, exprs::values(alloc, HERE, xs(alloc)));
    let all = lists::and_expr(all, exprs::fun_name(alloc, HERE, key(alloc)));
    let all = lists::and_expr(all, exprs::literal(alloc, HERE, Ok(Term::Int(7))));
    let all = lists::and_expr(all, exprs::list(alloc, HERE, xs(alloc), x(alloc)));
    let all = lists::and_expr(all, exprs::tuple(alloc, HERE, xs(alloc)));
    let all = lists::and_expr(all, exprs::map(alloc, HERE, parts(alloc)));
    let all = lists::and_expr(all, exprs::updated_map(alloc, HERE, parts(alloc), x(alloc)));
    lists::and_expr(all, exprs::binary(alloc, HERE, segments(alloc)))
}

fn calls(alloc: Global) -> Made<Exprs> {
    let all = lists::and_expr(data(alloc), exprs::apply(alloc, HERE, x(alloc), xs(alloc)));
    let all = lists::and_expr(all, exprs::call(alloc, HERE, x(alloc), x(alloc), xs(alloc)));
    let all = lists::and_expr(all, exprs::primop(alloc, HERE, name(alloc), xs(alloc)));
    let all = lists::and_expr(all, exprs::do_then(alloc, HERE, x(alloc), x(alloc)));
    lists::and_expr(all, exprs::catch(alloc, HERE, x(alloc)))
}

fn tried(alloc: Global) -> Made<Boxed<Expr>> {
    exprs::try_in(
        alloc,
        HERE,
        x(alloc),
        vars(alloc),
        x(alloc),
        vars(alloc),
        x(alloc),
    )
}

fn forms(alloc: Global) -> Made<Exprs> {
    let all = lists::and_expr(calls(alloc), exprs::fun(alloc, HERE, vars(alloc), x(alloc)));
    let all = lists::and_expr(
        all,
        exprs::let_in(alloc, HERE, vars(alloc), x(alloc), x(alloc)),
    );
    let all = lists::and_expr(all, exprs::letrec(alloc, HERE, defs(alloc), x(alloc)));
    let all = lists::and_expr(all, exprs::case(alloc, HERE, x(alloc), clauses(alloc)));
    let all = lists::and_expr(all, tried(alloc));
    lists::and_expr(
        all,
        exprs::receive(alloc, HERE, clauses(alloc), x(alloc), x(alloc)),
    )
}

fn items_of(expr: &Expr) -> usize {
    match &expr.form {
        ExprForm::Tuple(items) => items.len(),
        _ => 0,
    }
}

#[test]
fn all_forms_are_copied(rt: HostRuntime) -> Result<(), Fail> {
    let copy = copied(
        rt.alloc(),
        exprs::tuple(rt.alloc(), HERE, forms(rt.alloc())),
    )?;
    assert_eq!(rt; items_of(&copy), 20);
    Ok(())
}

fn parts_of(pattern: &Pattern) -> usize {
    match &pattern.form {
        PatternForm::Tuple(items) => items.len(),
        _ => 0,
    }
}

#[test]
fn all_patterns_are_copied(rt: HostRuntime) -> Result<(), Fail> {
    let copy = copied(
        rt.alloc(),
        patterns::tuple(rt.alloc(), HERE, all_patterns(rt.alloc())),
    )?;
    assert_eq!(rt; parts_of(&copy), 7);
    Ok(())
}

fn module(alloc: Global) -> Made<Module> {
    let mut exports = List::new(alloc);
    exports.push(FunName {
        key: key(alloc)?,
        place: HERE,
    })?;
    Ok(Module {
        name: name(alloc)?,
        exports,
        attributes: List::new(alloc),
        defs: defs(alloc)?,
        floats: None,
        wide: None,
        long: Some((HERE, 256)),
    })
}

fn is_module(module: &Module) -> bool {
    module.defs.len() == 1 && module.exports.len() == 1 && module.long == Some((HERE, 256))
}

#[test]
fn a_module_is_copied(rt: HostRuntime) -> Result<(), Fail> {
    let copy = module(rt.alloc())?.copy(rt.alloc())?;
    assert!(rt; is_module(&copy));
    Ok(())
}

fn copied<T: CoreCopy + Drop>(alloc: Global, item: Made<Boxed<T>>) -> Made<T> {
    item?.get().copy(alloc)
}

fn is_var(expr: &Expr) -> bool {
    matches!(&expr.form, ExprForm::Var(_))
}

#[test]
fn an_expression_is_copied_alone(rt: HostRuntime) -> Result<(), Fail> {
    let copy = copied(rt.alloc(), x(rt.alloc()))?;
    assert!(rt; is_var(&copy));
    Ok(())
}

#[test]
fn a_part_of_a_map_is_copied_alone(rt: HostRuntime) -> Result<(), Fail> {
    let copy = copied(rt.alloc(), part(rt.alloc()))?;
    assert!(rt; copy.exact);
    Ok(())
}

#[test]
fn a_segment_is_copied_alone(rt: HostRuntime) -> Result<(), Fail> {
    let copy = copied(rt.alloc(), segment(rt.alloc()))?;
    assert_eq!(rt; copy.place, HERE);
    Ok(())
}

fn is_literal(pattern: &Pattern) -> bool {
    matches!(&pattern.form, PatternForm::Literal(_))
}

#[test]
fn a_pattern_is_copied_alone(rt: HostRuntime) -> Result<(), Fail> {
    let copy = copied(rt.alloc(), one(rt.alloc()))?;
    assert!(rt; is_literal(&copy));
    Ok(())
}

#[test]
fn a_key_is_copied_alone(rt: HostRuntime) -> Result<(), Fail> {
    let copy = copied(rt.alloc(), key_pattern(rt.alloc()))?;
    assert!(rt; is_literal(&copy.pattern));
    Ok(())
}

#[test]
fn a_segment_of_a_pattern_is_copied_alone(rt: HostRuntime) -> Result<(), Fail> {
    let copy = copied(rt.alloc(), seg_pattern(rt.alloc()))?;
    assert_eq!(rt; copy.place, HERE);
    Ok(())
}

#[test]
fn clauses_are_copied(rt: HostRuntime) -> Result<(), Fail> {
    let copy = clauses(rt.alloc())?.copy(rt.alloc())?;
    assert_eq!(rt; copy.len(), 1);
    Ok(())
}

#[test]
fn definitions_are_copied(rt: HostRuntime) -> Result<(), Fail> {
    let copy = defs(rt.alloc())?.copy(rt.alloc())?;
    assert_eq!(rt; copy.len(), 1);
    Ok(())
}
