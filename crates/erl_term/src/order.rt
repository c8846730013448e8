ghost use Rattle.std.specs.Prelude.{◌≡◌, ◌↔◌, IsTrue, length};
ghost use Rattle.std.specs.Ordering.{bool_cmp, nat_cmp, ordering_then};
ghost use Rattle.std.specs.Cmp.Lexicographic.{slice_cmp};
ghost use Rattle.erl_term.specs.TermOrder as Order;
ghost use Rattle.erl_term.specs.BitString.{byte_bits};
ghost use Rattle.erl_term.specs.View.{class_view, view, bits_view};
ghost use Rattle.erl_term.specs.WellFormed.{IsNormal, IsFull};
ghost use Rattle.erl_term.specs.Comparing.{same_kind_of, sized, maps, heads, common, row, pair_row, AllNormal, PairsNormal, ValuesNormal};

use crate::term::{Bits, Class, Pair, Term};
use erl_base::{Name, SiteId};
use std::cmp::Ordering;

/// The place of lists in the order of kinds.
const LIST: u8 = 10;

/// Which of two terms comes first. It takes no memory, and goes as deep as the terms nest.
#[cycle(order)]
#[tactic(auto, using(crate::proofs::Comparing::compares))]
pub fn compare(a: &Term, b: &Term) -> Ordering
    requires first { IsNormal a.now }
    requires second { IsNormal b.now }
    ensures { result ≡ Order.compare (view a.now) (view b.now) }
{
    match a.rank().cmp(&b.rank()) {
        Ordering::Equal => compare_same_kind(a, b),
        unequal => unequal,
    }
}

impl Term {
    /// Whether both are one term.
    #[tactic(auto, using(crate::proofs::OrderLaws::same_when_equal))]
    pub fn is(&self, other: &Term) -> bool
        requires first { IsNormal self.now }
        requires second { IsNormal other.now }
        ensures { IsTrue result ↔ (view self.now ≡ view other.now) }
    {
        match compare(self, other) {
            Ordering::Equal => true,
            Ordering::Less | Ordering::Greater => false,
        }
    }

    /// The place of its kind in the order.
    #[tactic(auto, using(crate::proofs::Comparing::list_rank))]
    pub fn rank(&self) -> u8
        requires { IsNormal self.now }
        ensures { result ≡ Order.rank (view self.now) }
    {
        match self {
            Term::Int(_) => 0,
            Term::Atom(_) => 1,
            Term::Reference(_) => 2,
            Term::Fun(..) => 3,
            Term::Extern(..) => 4,
            Term::Port(_) => 5,
            Term::Pid(_) => 6,
            Term::Tuple(_) => 7,
            Term::Map(_) => 8,
            Term::Nil => 9,
            Term::List(..) => LIST,
            Term::Bits(_) => 11,
            Term::RawTrace(_) => 12,
        }
    }
}

impl Class {
    fn rank(self) -> u8
        ensures { result ≡ Order.class_rank (class_view self) }
    {
        match self {
            Class::Error => 0,
            Class::Exit => 1,
            Class::Throw => 2,
        }
    }
}

#[cycle(order)]
#[tactic(auto, using(crate::proofs::Forms::tail_normal))]
fn compare_same_kind(a: &Term, b: &Term) -> Ordering
    requires first { IsNormal a.now }
    requires second { IsNormal b.now }
    ensures { result ≡ same_kind_of a.now b.now }
{
    match (a, b) {
        (Term::Int(x), Term::Int(y)) => x.cmp(y),
        (Term::Atom(x), Term::Atom(y)) => x.compare(y),
        (Term::Reference(x), Term::Reference(y)) => x.cmp(y),
        (Term::Fun(m, s, k, xs), Term::Fun(n, r, l, ys)) => {
            match compare_heads(m, *s, *k, n, *r, *l) {
                Ordering::Equal => compare_items(xs.as_slice(), ys.as_slice()),
                unequal => unequal,
            }
        }
        (Term::Extern(m, f, k), Term::Extern(n, g, l)) => {
            m.compare(n).then(f.compare(g).then(k.cmp(l)))
        }
        (Term::Port(x), Term::Port(y)) => x.cmp(y),
        (Term::Pid(x), Term::Pid(y)) => x.cmp(y),
        (Term::Tuple(xs), Term::Tuple(ys)) => compare_sized(xs.as_slice(), ys.as_slice()),
        (Term::Map(ps), Term::Map(qs)) => compare_maps(ps.as_slice(), qs.as_slice()),
        (Term::List(xs, t), Term::List(ys, u)) => {
            let (xs, ys) = (xs.as_slice(), ys.as_slice());
            match compare_common(xs, ys) {
                Ordering::Equal => match xs.len().cmp(&ys.len()) {
                    Ordering::Equal => compare(t.get(), u.get()),
                    Ordering::Greater => LIST.cmp(&u.get().rank()),
                    Ordering::Less => t.get().rank().cmp(&LIST),
                },
                unequal => unequal,
            }
        }
        (Term::Bits(x), Term::Bits(y)) => compare_bits(x, y),
        (Term::RawTrace(c), Term::RawTrace(d)) => c.rank().cmp(&d.rank()),
        _ => Ordering::Equal,
    }
}

fn compare_heads(m: &Name, s: SiteId, a: u32, n: &Name, r: SiteId, b: u32) -> Ordering
    ensures { result ≡ heads m.now s.0 a n.now r.0 b }
{
    m.compare(n).then(s.0.cmp(&r.0).then(a.cmp(&b)))
}

fn compare_bits(a: &Bits, b: &Bits) -> Ordering
    requires first { IsFull a.now }
    requires second { IsFull b.now }
    ensures { result ≡ slice_cmp bool_cmp (bits_view a.now) (bits_view b.now) }
{
    match compare_bytes(a.bytes.as_slice(), b.bytes.as_slice()) {
        Ordering::Equal => a.length.cmp(&b.length),
        unequal => unequal,
    }
}

fn compare_bytes(a: &[u8], b: &[u8]) -> Ordering
    ensures { result ≡ slice_cmp bool_cmp (byte_bits a.now) (byte_bits b.now) }
{
    let shorter = a.len().min(b.len());
    for i in 0..shorter {
        match a[i].cmp(&b[i]) {
            Ordering::Equal => {}
            unequal => return unequal,
        }
    }
    a.len().cmp(&b.len())
}

/// By number, then term by term.
#[cycle(order)]
#[tactic(auto, using(crate::proofs::Comparing::counts))]
fn compare_sized(xs: &[Term], ys: &[Term]) -> Ordering
    requires first { AllNormal xs.now }
    requires second { AllNormal ys.now }
    ensures { result ≡ sized (row xs.now) (row ys.now) }
{
    match xs.len().cmp(&ys.len()) {
        Ordering::Equal => compare_items(xs, ys),
        unequal => unequal,
    }
}

/// Term by term, a proper prefix first.
#[cycle(order)]
#[tactic(auto, using(crate::proofs::Comparing::rows))]
fn compare_items(xs: &[Term], ys: &[Term]) -> Ordering
    requires first { AllNormal xs.now }
    requires second { AllNormal ys.now }
    ensures { result ≡ Order.compare_all (row xs.now) (row ys.now) }
{
    match compare_common(xs, ys) {
        Ordering::Equal => xs.len().cmp(&ys.len()),
        unequal => unequal,
    }
}

/// Term by term, as far as both rows go.
#[cycle(order)]
#[tactic(auto, using(crate::proofs::Comparing::common_over))]
fn compare_common(xs: &[Term], ys: &[Term]) -> Ordering
    requires first { AllNormal xs.now }
    requires second { AllNormal ys.now }
    ensures { result ≡ common (row xs.now) (row ys.now) }
{
    let shorter = xs.len().min(ys.len());
    for i in 0..shorter {
        match compare(&xs[i], &ys[i]) {
            Ordering::Equal => {}
            unequal => return unequal,
        }
    }
    Ordering::Equal
}

/// By number, then by keys, then by values.
#[cycle(order)]
#[tactic(auto, using(crate::proofs::Comparing::pairs_compared))]
fn compare_maps(ps: &[Pair], qs: &[Pair]) -> Ordering
    requires first { PairsNormal ps.now }
    requires second { PairsNormal qs.now }
    ensures { result ≡ maps (pair_row ps.now) (pair_row qs.now) }
{
    match ps.len().cmp(&qs.len()) {
        Ordering::Equal => match compare_keys(ps, qs) {
            Ordering::Equal => compare_values(ps, qs),
            unequal => unequal,
        },
        unequal => unequal,
    }
}

/// Key by key, in maps of one size.
#[cycle(order)]
#[tactic(auto, unfolding(crate::specs::TermOrder::compare))]
fn compare_keys(ps: &[Pair], qs: &[Pair]) -> Ordering
    requires size { length ps.now ≡ length qs.now }
    requires first { PairsNormal ps.now }
    requires second { PairsNormal qs.now }
    ensures { result ≡ Order.compare_keys (pair_row ps.now) (pair_row qs.now) }
{
    for i in 0..ps.len() {
        match compare(&ps[i].key, &qs[i].key) {
            Ordering::Equal => {}
            unequal => return unequal,
        }
    }
    Ordering::Equal
}

/// Value by value, in maps of one size.
#[cycle(order)]
#[tactic(auto, unfolding(crate::specs::TermOrder::compare))]
fn compare_values(ps: &[Pair], qs: &[Pair]) -> Ordering
    requires size { length ps.now ≡ length qs.now }
    requires first { ValuesNormal ps.now }
    requires second { ValuesNormal qs.now }
    ensures { result ≡ Order.compare_values (pair_row ps.now) (pair_row qs.now) }
{
    for i in 0..ps.len() {
        match compare(&ps[i].value, &qs[i].value) {
            Ordering::Equal => {}
            unequal => return unequal,
        }
    }
    Ordering::Equal
}
