ghost use Rattle.std.specs.Prelude.{codes, ◌≡◌, ◌++◌, not, IfOk, OnOk, IsTrue, true};
ghost use Rattle.term_text.specs.Decimal.{decimal_on, integer_on};
ghost use Rattle.term_text.specs.Atoms.{atom_text};
ghost use Rattle.term_text.specs.TermText.{printed, term_on, rest_on, row_on, pairs_on, marked_on, class_text};
ghost use Rattle.term_text.specs.Printing.{Adds};
ghost use Rattle.erl_term.specs.Term as Plain;
ghost use Rattle.erl_term.specs.View.{class_view, view};
ghost use Rattle.erl_term.specs.WellFormed.{IsNormal, layout, pair_normal};
ghost use Rattle.erl_term.specs.Comparing.{row, pair_row, AllNormal, PairsNormal};

use crate::atoms::put_name;
use crate::bits::{push_bit_string, push_comma};
use crate::bytes::push_bytes;
use crate::numbers::{put_integer, put_u32, put_u64};
use erl_base::{List, Name, NoMemory, SiteId, Text};
use erl_term::{Class, Pair, Term};
use std::alloc::Global;

/// The place of nil in the order of kinds.
const NIL: u8 = 9;

/// The printed text of a term. It goes as deep as the term nests.
pub fn write_term(alloc: Global, term: &Term) -> Result<Text, NoMemory>
    requires { IsNormal term.now }
    ensures { IfOk result (λ text. text ≡ printed (view term.now)) }
{
    let mut text = List::new(alloc);
    put_term(&mut text, term)?;
    Ok(text)
}

/// Writes a term.
pub fn put_term(out: &mut Text, term: &Term) -> Result<(), NoMemory>
    requires { IsNormal term.now }
    ensures { OnOk result (Adds out.old out.new (term_on (view term.now))) }
{
    push_term(term, out)
}

#[cycle(write)]
#[tactic(auto, unfolding(crate::specs::TermText::texts))]
fn push_term(term: &Term, out: &mut Text) -> Result<(), NoMemory>
    requires { IsNormal term.now }
    ensures { OnOk result (Adds out.old out.new (term_on (view term.now))) }
{
    match term {
        Term::Int(number) => push_whole(out, number),
        Term::Atom(name) => put_name(out, name),
        Term::Nil => push_bytes(out, b"[]"),
        Term::List(items, tail) => {
            push_bytes(out, b"[")?;
            push_row(items.as_slice(), out)?;
            push_rest(tail.get(), out)
        }
        Term::Tuple(items) => {
            push_bytes(out, b"{")?;
            push_row(items.as_slice(), out)?;
            push_bytes(out, b"}")
        }
        Term::Map(pairs) => {
            push_bytes(out, b"#{")?;
            push_pairs(pairs.as_slice(), out)?;
            push_bytes(out, b"}")
        }
        Term::Bits(bits) => push_bit_string(out, bits),
        Term::Fun(module, site, arity, captured) => {
            push_fun_head(out, module, *site, *arity)?;
            push_row(captured.as_slice(), out)?;
            push_bytes(out, b"]>")
        }
        Term::Extern(module, name, arity) => push_extern(out, module, name, *arity),
        Term::Pid(number) => push_marked(out, b"#Pid<", *number),
        Term::Reference(number) => push_marked(out, b"#Ref<", *number),
        Term::Port(number) => push_marked(out, b"#Port<", *number),
        Term::RawTrace(class) => push_class(out, *class),
    }
}

/// The tail of a list and the bracket that closes it.
#[cycle(write)]
fn push_rest(term: &Term, out: &mut Text) -> Result<(), NoMemory>
    requires normal { IsNormal term.now }
    requires no_list { IsTrue (not (layout term.now).listed) }
    ensures { OnOk result (Adds out.old out.new (rest_on (view term.now))) }
{
    if term.rank() == NIL {
        push_bytes(out, b"]")?;
        return Ok(());
    }
    push_bytes(out, b"|")?;
    push_term(term, out)?;
    push_bytes(out, b"]")?;
    Ok(())
}

#[cycle(write)]
#[tactic(auto, unfolding(crate::specs::TermText::texts))]
fn push_row(terms: &[Term], out: &mut Text) -> Result<(), NoMemory>
    requires { AllNormal terms.now }
    ensures { OnOk result (Adds out.old out.new (row_on true (row terms.now))) }
{
    let mut first = true;
    for term in terms {
        push_comma(out, first)?;
        push_term(term, out)?;
        first = false;
    }
    Ok(())
}

#[cycle(write)]
#[tactic(auto, unfolding(crate::specs::TermText::texts))]
fn push_pairs(pairs: &[Pair], out: &mut Text) -> Result<(), NoMemory>
    requires { PairsNormal pairs.now }
    ensures { OnOk result (Adds out.old out.new (pairs_on true (pair_row pairs.now))) }
{
    let mut first = true;
    for pair in pairs {
        push_comma(out, first)?;
        push_pair(pair, out)?;
        first = false;
    }
    Ok(())
}

#[cycle(write)]
#[tactic(auto, unfolding(crate::specs::TermText::texts))]
fn push_pair(pair: &Pair, out: &mut Text) -> Result<(), NoMemory>
    requires { IsTrue (pair_normal pair.now) }
    ensures { OnOk result (Adds out.old out.new (λ r.
        term_on (view pair.now.key) (codes "=>" ++ term_on (view pair.now.value) r))) }
{
    push_term(&pair.key, out)?;
    push_bytes(out, b"=>")?;
    push_term(&pair.value, out)
}

fn push_whole(out: &mut Text, number: &i128) -> Result<(), NoMemory>
    ensures { OnOk result (Adds out.old out.new (integer_on number.now)) }
{
    put_integer(out, *number)?;
    Ok(())
}

fn push_marked(out: &mut Text, mark: &[u8], number: u64) -> Result<(), NoMemory>
    ensures { OnOk result (Adds out.old out.new (marked_on mark.now number)) }
{
    push_bytes(out, mark)?;
    put_u64(out, number)?;
    push_bytes(out, b">")
}

fn push_class(out: &mut Text, class: Class) -> Result<(), NoMemory>
    ensures { OnOk result (Adds out.old out.new (λ r.
        codes "#Trace<" ++ (class_text (class_view class) ++ (codes ">" ++ r)))) }
{
    match class {
        Class::Error => push_bytes(out, b"#Trace<error>"),
        Class::Exit => push_bytes(out, b"#Trace<exit>"),
        Class::Throw => push_bytes(out, b"#Trace<throw>"),
    }
}

/// A local fun up to its captured terms.
fn push_fun_head(out: &mut Text, home: &Name, site: SiteId, arity: u32) -> Result<(), NoMemory>
    ensures { OnOk result (Adds out.old out.new (λ r. codes "#Fun<"
        ++ (atom_text home.now ++ (codes "," ++ decimal_on site.0 (codes ","
        ++ decimal_on arity (codes ",[" ++ r)))))) }
{
    push_bytes(out, b"#Fun<")?;
    put_name(out, home)?;
    push_bytes(out, b",")?;
    put_u32(out, site.0)?;
    push_bytes(out, b",")?;
    put_u32(out, arity)?;
    push_bytes(out, b",[")?;
    Ok(())
}

#[tactic(auto, unfolding(crate::specs::TermText::texts))]
fn push_extern(out: &mut Text, home: &Name, name: &Name, arity: u32) -> Result<(), NoMemory>
    ensures { OnOk result (Adds out.old out.new (term_on (Plain.extern home.now name.now arity))) }
{
    push_bytes(out, b"fun ")?;
    put_name(out, home)?;
    push_bytes(out, b":")?;
    put_name(out, name)?;
    push_bytes(out, b"/")?;
    put_u32(out, arity)
}
