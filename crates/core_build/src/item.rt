// What is still to be read of a text, and what is then done.
use erl_base::Place;

/// A row of parts: expressions, patterns, variables, names of functions, pairs of a map and of a map pattern, segments
/// of a binary and of a binary pattern, clauses, definitions, attributes.
#[derive(Clone, Copy, Debug)]
pub enum Row {
    Exprs,
    Patterns,
    Binders,
    Names,
    Pairs,
    Keys,
    Segments,
    Segs,
    Clauses,
    Defs,
    Attributes,
}

/// What is put together of the values that were read last. `Start` begins a row without parts, and `Add` adds the part
/// behind it. Nodes stand at their places.
#[derive(Clone, Copy, Debug)]
pub enum Make {
    Start(Row),
    Add(Row),
    List(Place),
    ListOn(Place),
    Tuple(Place),
    Values(Place),
    Map(Place),
    MapOn(Place),
    Binary(Place),
    Segment(Place),
    Fun(Place),
    Let(Place),
    Letrec(Place),
    Case(Place),
    Apply(Place),
    Call(Place),
    Primop(Place),
    Do(Place),
    Catch(Place),
    Try(Place),
    Receive(Place),
    Clause(Place),
    Alias,
    PatternList(Place),
    PatternListOn(Place),
    PatternTuple(Place),
    PatternMap(Place),
    PatternBinary(Place),
    Seg(Place),
}

/// What is to be read next.
#[derive(Clone, Copy, Debug)]
pub enum Item {
    // a token, whatever it is
    Skip,
    // a part; a group is one variable or some
    Expr,
    Pattern,
    Variable,
    Group,
    Name,
    Atom,
    Segment,
    Seg,
    Clause,
    Module,
    // parts behind those that were read, or none: the first, and another
    Row(Row),
    More(Row),
    // behind an atom, a name, `fun`, an external fun's names, the items of a list, a key, the pairs of a map, a
    // variable, the patterns of a clause
    NameRest,
    Arity,
    NameArity,
    FunRest(Place),
    ExternalArity(Place),
    PatternArity(Place),
    ListEnd(Place),
    PatternListEnd(Place),
    PairArrow,
    MapEnd(Place),
    AliasRest,
    When(Place),
    // nothing is read
    Make(Make),
}
