// Which of two values comes first. It takes no memory, goes along lists in a loop, and as deep as the values nest else.
ghost use Rattle.std.specs.Prelude.{◌≡◌, IsTrue, All, length};
ghost use Rattle.std.specs.Ordering.{nat_cmp, ordering_then};
ghost use Rattle.erl_term.specs.Comparing.{sized, maps, heads};
ghost use Rattle.erl_term.specs.TermOrder as Order;
ghost use Rattle.erl_term.specs.View.{class_view};
ghost use Rattle.shared_term.specs.Comparing.{same_kind_of, cells, locals, IsCellWhole};
ghost use Rattle.shared_term.specs.View.{view, row, pair_row, is_within, IsWhole, IsPairWhole};

use crate::octets::compare_ranges;
use crate::value::{Cell, Local, Value, ValuePair};
use erl_term::Class;
use std::cmp::Ordering;

/// Which of two values comes first.
#[cycle(order)]
#[tactic(auto, using(crate::proofs::Comparing::compares))]
pub fn compare(a: &Value, b: &Value) -> Ordering
    requires first { IsWhole a.now }
    requires second { IsWhole b.now }
    ensures { result ≡ Order.compare (view a.now) (view b.now) }
{
    // What most lists hold takes no other way.
    if let Value::Int(x) = a {
        if let Value::Int(y) = b {
            return x.cmp(y);
        }
    }
    match rank(a).cmp(&rank(b)) {
        Ordering::Equal => compare_same_kind(a, b),
        unequal => unequal,
    }
}

/// The place of its kind in the order.
fn rank(value: &Value) -> u8
    ensures { result ≡ Order.rank (view value.now) }
{
    match value {
        Value::Int(_) => 0,
        Value::Atom(_) => 1,
        Value::Nil => 9,
        Value::Cons(_) => 10,
        Value::Tuple(_) => 7,
        Value::Map(_) => 8,
        Value::Bits(_) => 11,
        Value::Fun(_) => 3,
        Value::Extern(_) => 4,
        Value::Pid(_) => 6,
        Value::Reference(_) => 2,
        Value::Port(_) => 5,
        Value::RawTrace(_) => 12,
    }
}

fn class_rank(class: Class) -> u8
    ensures { result ≡ Order.class_rank (class_view class) }
{
    match class {
        Class::Error => 0,
        Class::Exit => 1,
        Class::Throw => 2,
    }
}

#[cycle(order)]
#[tactic(auto)]
fn compare_same_kind(a: &Value, b: &Value) -> Ordering
    requires first { IsWhole a.now }
    requires second { IsWhole b.now }
    ensures { result ≡ same_kind_of a.now b.now }
{
    match (a, b) {
        (Value::Int(x), Value::Int(y)) => x.cmp(y),
        (Value::Atom(x), Value::Atom(y)) => x.compare(y),
        (Value::Cons(x), Value::Cons(y)) => compare_cells(x, y),
        (Value::Tuple(x), Value::Tuple(y)) => compare_sized(x.items.as_slice(), y.items.as_slice()),
        (Value::Map(x), Value::Map(y)) => compare_maps(x.pairs.as_slice(), y.pairs.as_slice()),
        (Value::Bits(x), Value::Bits(y)) => compare_ranges(x, y),
        (Value::Fun(x), Value::Fun(y)) => compare_locals(x, y),
        (Value::Extern(x), Value::Extern(y)) => {
            (x.module.compare(&y.module)).then(x.name.compare(&y.name).then(x.arity.cmp(&y.arity)))
        }
        (Value::Pid(x), Value::Pid(y)) => x.cmp(y),
        (Value::Reference(x), Value::Reference(y)) => x.cmp(y),
        (Value::Port(x), Value::Port(y)) => x.cmp(y),
        (Value::RawTrace(x), Value::RawTrace(y)) => class_rank(*x).cmp(&class_rank(*y)),
        _ => Ordering::Equal,
    }
}

/// Item by item, and then what follows the last cell of the shorter list.
#[cycle(order)]
fn compare_cells(a: &Cell, b: &Cell) -> Ordering
    requires first { IsCellWhole a.now }
    requires second { IsCellWhole b.now }
    ensures { result ≡ cells a.now b.now }
{
    let (mut x, mut y) = (a, b);
    'along: loop {
        match compare(&x.head, &y.head) {
            Ordering::Equal => {}
            unequal => return unequal,
        }
        match (&x.tail, &y.tail) {
            (Value::Cons(v), Value::Cons(w)) => {
                x = v;
                y = w;
            }
            (v, w) => return compare(v, w),
        }
    }
}

/// Module, site and arity, and then what was captured.
#[cycle(order)]
fn compare_locals(a: &Local, b: &Local) -> Ordering
    requires first { All IsWhole a.now.captured.items }
    requires second { All IsWhole b.now.captured.items }
    ensures { result ≡ locals a.now b.now }
{
    match compare_heads(a, b) {
        Ordering::Equal => compare_items(a.captured.items.as_slice(), b.captured.items.as_slice()),
        unequal => unequal,
    }
}

fn compare_heads(a: &Local, b: &Local) -> Ordering
    ensures { result ≡ heads a.now.module a.now.site.0 a.now.arity b.now.module b.now.site.0 b.now.arity }
{
    a.module
        .compare(&b.module)
        .then(a.site.0.cmp(&b.site.0).then(a.arity.cmp(&b.arity)))
}

/// By number, then value by value.
#[cycle(order)]
#[tactic(auto, using(crate::proofs::Comparing::counts))]
fn compare_sized(xs: &[Value], ys: &[Value]) -> Ordering
    requires first { All IsWhole xs.now }
    requires second { All IsWhole ys.now }
    ensures { result ≡ sized (row xs.now) (row ys.now) }
{
    match xs.len().cmp(&ys.len()) {
        Ordering::Equal => compare_items(xs, ys),
        unequal => unequal,
    }
}

/// Value by value, a proper prefix first.
#[cycle(order)]
#[tactic(auto, using(crate::proofs::Comparing::rows), unfolding(erl_term::specs::TermOrder::compare))]
fn compare_items(xs: &[Value], ys: &[Value]) -> Ordering
    requires first { All IsWhole xs.now }
    requires second { All IsWhole ys.now }
    ensures { result ≡ Order.compare_all (row xs.now) (row ys.now) }
{
    let shorter = xs.len().min(ys.len());
    for i in 0..shorter {
        match compare(&xs[i], &ys[i]) {
            Ordering::Equal => {}
            unequal => return unequal,
        }
    }
    xs.len().cmp(&ys.len())
}

/// By number, then by keys, then by values.
#[cycle(order)]
#[tactic(auto, using(crate::proofs::Comparing::counts))]
fn compare_maps(ps: &[ValuePair], qs: &[ValuePair]) -> Ordering
    requires first { All IsPairWhole ps.now }
    requires second { All IsPairWhole qs.now }
    ensures { result ≡ maps (pair_row ps.now) (pair_row qs.now) }
{
    match ps.len().cmp(&qs.len()) {
        Ordering::Equal => match compare_keys(ps, qs) {
            Ordering::Equal => compare_values(ps, qs),
            unequal => unequal,
        },
        unequal => unequal,
    }
}

/// Key by key, in maps of one size.
#[cycle(order)]
#[tactic(auto, unfolding(erl_term::specs::TermOrder::compare))]
fn compare_keys(ps: &[ValuePair], qs: &[ValuePair]) -> Ordering
    requires size { length ps.now ≡ length qs.now }
    requires first { All IsPairWhole ps.now }
    requires second { All IsPairWhole qs.now }
    ensures { result ≡ Order.compare_keys (pair_row ps.now) (pair_row qs.now) }
{
    for i in 0..ps.len() {
        match compare(&ps[i].key, &qs[i].key) {
            Ordering::Equal => {}
            unequal => return unequal,
        }
    }
    Ordering::Equal
}

/// Value by value, in maps of one size.
#[cycle(order)]
#[tactic(auto, unfolding(erl_term::specs::TermOrder::compare))]
fn compare_values(ps: &[ValuePair], qs: &[ValuePair]) -> Ordering
    requires size { length ps.now ≡ length qs.now }
    requires first { All IsPairWhole ps.now }
    requires second { All IsPairWhole qs.now }
    ensures { result ≡ Order.compare_values (pair_row ps.now) (pair_row qs.now) }
{
    for i in 0..ps.len() {
        match compare(&ps[i].value, &qs[i].value) {
            Ordering::Equal => {}
            unequal => return unequal,
        }
    }
    Ordering::Equal
}
