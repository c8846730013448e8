// Expressions, patterns and clauses. Every node is a struct with its place and its form.
ghost use Rattle.std.specs.Prelude.{◌≡◌, IfOk};

use erl_base::{Boxed, Duplicate, FunKey, List, Name, NoMemory, Place};
use erl_term::Term;
use std::alloc::Global;

/// A variable where it is bound; of a captured variable the place is that of its first use.
#[derive(Debug, Drop)]
pub struct Binder {
    pub name: Name,
    pub place: Place,
}

#[cycle(tree)]
#[derive(Drop)]
pub struct Expr {
    pub place: Place,
    pub form: ExprForm,
}

/// What an expression is. `Map` without a base makes a map, with one it puts pairs into the base. `Try` has the tried
/// part, the variables and body for its values, and the variables and body for what it raises. `Receive` has the
/// clauses, the timeout and the body after it.
#[cycle(tree)]
#[derive(Drop)]
pub enum ExprForm {
    Values(Exprs),
    Var(Name),
    FunName(FunKey),
    Literal(Term),
    List(Exprs, Boxed<Expr>),
    Tuple(Exprs),
    Map(MapParts, Option<Boxed<Expr>>),
    Binary(Segments),
    Fun(Binders, Boxed<Expr>),
    Let(Binders, Boxed<Expr>, Boxed<Expr>),
    Letrec(Defs, Boxed<Expr>),
    Case(Boxed<Expr>, Clauses),
    Apply(Boxed<Expr>, Exprs),
    Call(Boxed<Expr>, Boxed<Expr>, Exprs),
    Primop(Name, Exprs),
    Do(Boxed<Expr>, Boxed<Expr>),
    Catch(Boxed<Expr>),
    Try(Boxed<Expr>, Binders, Boxed<Expr>, Binders, Boxed<Expr>),
    Receive(Clauses, Boxed<Expr>, Boxed<Expr>),
}

/// A pair of a map expression; `exact` where it is written `:=`, so that the key has to be there.
#[cycle(tree)]
#[derive(Drop)]
pub struct MapPart {
    pub key: Expr,
    pub value: Expr,
    pub exact: bool,
}

/// A segment of a binary that is built.
#[cycle(tree)]
#[derive(Drop)]
pub struct Segment {
    pub place: Place,
    pub value: Expr,
    pub size: Expr,
    pub unit: Term,
    pub kind: Name,
    pub flags: Term,
}

/// A function's definition, of a module or of a `letrec`, at the place of its name. `fun` is a `Fun`.
#[cycle(tree)]
#[derive(Drop)]
pub struct Def {
    pub key: FunKey,
    pub place: Place,
    pub fun: Expr,
}

#[cycle(tree)]
#[derive(Drop)]
pub struct Clause {
    pub place: Place,
    pub patterns: Patterns,
    pub guard: Expr,
    pub body: Expr,
}

#[cycle(tree)]
#[derive(Drop)]
pub struct Pattern {
    pub place: Place,
    pub form: PatternForm,
}

#[cycle(tree)]
#[derive(Drop)]
pub enum PatternForm {
    Var(Name),
    Alias(Name, Boxed<Pattern>),
    Literal(Term),
    List(Patterns, Boxed<Pattern>),
    Tuple(Patterns),
    Map(KeyPatterns),
    Binary(SegPatterns),
}

/// A pair of a map pattern; the key is a variable or a literal.
#[cycle(tree)]
#[derive(Drop)]
pub struct KeyPattern {
    pub key: Expr,
    pub pattern: Pattern,
}

/// A segment of a binary pattern; the value is a variable or a literal, and so is the size.
#[cycle(tree)]
#[derive(Drop)]
pub struct SegPattern {
    pub place: Place,
    pub value: Pattern,
    pub size: Expr,
    pub unit: Term,
    pub kind: Name,
    pub flags: Term,
}

pub type Binders = List<Binder>;

pub type Exprs = List<Expr>;

pub type MapParts = List<MapPart>;

pub type Segments = List<Segment>;

pub type Defs = List<Def>;

pub type Clauses = List<Clause>;

pub type Patterns = List<Pattern>;

pub type KeyPatterns = List<KeyPattern>;

pub type SegPatterns = List<SegPattern>;

impl Binder {
    pub fn copy(&self, alloc: Global) -> Result<Binder, NoMemory>
        ensures { IfOk result (λ copy. copy ≡ self.now) }
    {
        Ok(Binder {
            name: self.name.copy(alloc)?,
            place: self.place,
        })
    }
}

impl Duplicate for Binder {
    fn copy(&self, alloc: Global) -> Result<Binder, NoMemory> {
        Binder::copy(self, alloc)
    }
}
