ghost use Rattle.std.specs.Prelude.{◌≡◌, IfOk, IfErr, IsTrue, not};
ghost use Rattle.erl_term.specs.WellFormed.{layout};
ghost use Rattle.erl_term.specs.declared.term.Term.TheVariants as T;

use erl_base::{Boxed, Bytes, Duplicate, List, Name, NoMemory, SiteId, let_go};
use std::alloc::Global;

/// The class of a raise.
#[derive(Clone, Copy, Debug, PartialEq, Eq)]
pub enum Class {
    Error,
    Exit,
    Throw,
}

/// A bit string: `length` bits, the first of them in the highest bit of the first byte.
#[derive(Debug, Drop)]
pub struct Bits {
    pub length: u64,
    pub bytes: Bytes,
}

/// A value of Erlang with integers of 128 bits. A list holds its first items and what follows the last of them.
#[cycle(term)]
#[derive(Debug)]
pub enum Term {
    Int(i128),
    Atom(Name),
    Nil,
    List(Terms, Boxed<Term>),
    Tuple(Terms),
    Map(Pairs),
    Bits(Bits),
    Fun(Name, SiteId, u32, Terms),
    Extern(Name, Name, u32),
    Pid(u64),
    Reference(u64),
    Port(u64),
    RawTrace(Class),
}

/// A key of a map and its value.
#[cycle(term)]
#[derive(Debug, Drop)]
pub struct Pair {
    pub key: Term,
    pub value: Term,
}

/// An attribute of a module.
#[derive(Debug, Drop)]
pub struct Attribute {
    pub key: Name,
    pub value: Term,
}

/// Terms in a row.
pub type Terms = List<Term>;

/// The pairs of a map.
pub type Pairs = List<Pair>;

/// The attributes of a module.
pub type Attributes = List<Attribute>;

impl Bits {
    pub fn copy(&self, alloc: Global) -> Result<Bits, NoMemory>
        ensures { IfOk result (λ bits. bits ≡ self.now) }
    {
        Ok(Bits {
            length: self.length,
            bytes: self.bytes.copy(alloc)?,
        })
    }
}

impl Term {
    #[cycle(copy)]
    pub fn copy(&self, alloc: Global) -> Result<Term, NoMemory>
        ensures { IfOk result (λ term. term ≡ self.now) }
    {
        match self {
            Term::Int(number) => Ok(Term::Int(*number)),
            Term::Atom(name) => Ok(Term::Atom(name.copy(alloc)?)),
            Term::Nil => Ok(Term::Nil),
            Term::List(items, tail) => {
                let items = copy_terms(items.as_slice(), alloc)?;
                let tail = tail.get().copy(alloc)?;
                Ok(Term::List(items, Boxed::new(alloc, tail)?))
            }
            Term::Tuple(items) => Ok(Term::Tuple(copy_terms(items.as_slice(), alloc)?)),
            Term::Map(pairs) => Ok(Term::Map(copy_pairs(pairs.as_slice(), alloc)?)),
            Term::Bits(bits) => Ok(Term::Bits(bits.copy(alloc)?)),
            Term::Fun(module, site, arity, captured) => Ok(Term::Fun(
                module.copy(alloc)?,
                *site,
                *arity,
                copy_terms(captured.as_slice(), alloc)?,
            )),
            Term::Extern(module, name, arity) => Ok(Term::Extern(
                module.copy(alloc)?,
                name.copy(alloc)?,
                *arity,
            )),
            Term::Pid(number) => Ok(Term::Pid(*number)),
            Term::Reference(number) => Ok(Term::Reference(*number)),
            Term::Port(number) => Ok(Term::Port(*number)),
            Term::RawTrace(class) => Ok(Term::RawTrace(*class)),
        }
    }

    /// The items and the tail of a list, or the term where it is none.
    pub fn into_list(self) -> Result<(Terms, Boxed<Term>), Term>
        ensures list { IfOk result (λ parts. self ≡ T.List parts.0 parts.1) }
        ensures same { IfErr result (λ term. term ≡ self) }
        ensures no_list { IfErr result (λ term. IsTrue (not (layout term).listed)) }
    {
        match self {
            Term::List(items, tail) => Ok((items, tail)),
            other => Err(other),
        }
    }
}

// By hand, so that the crates above take it as it was proved here.
impl Drop for Term {
    #[cycle(drop)]
    fn drop(self) {
        match self {
            Term::Int(_) => {}
            Term::Atom(name) => let_go(name),
            Term::Nil => {}
            Term::List(items, tail) => {
                let_go(items);
                let_go(tail);
            }
            Term::Tuple(items) => let_go(items),
            Term::Map(pairs) => let_go(pairs),
            Term::Bits(bits) => let_go(bits),
            Term::Fun(module, _, _, captured) => {
                let_go(module);
                let_go(captured);
            }
            Term::Extern(module, name, _) => {
                let_go(module);
                let_go(name);
            }
            Term::Pid(_) => {}
            Term::Reference(_) => {}
            Term::Port(_) => {}
            Term::RawTrace(_) => {}
        }
    }
}

impl Pair {
    #[cycle(copy)]
    pub fn copy(&self, alloc: Global) -> Result<Pair, NoMemory>
        ensures { IfOk result (λ pair. pair ≡ self.now) }
    {
        let key = self.key.copy(alloc)?;
        let value = self.value.copy(alloc)?;
        Ok(Pair { key, value })
    }
}

#[cycle(copy)]
fn copy_terms(terms: &[Term], alloc: Global) -> Result<Terms, NoMemory>
    ensures { IfOk result (λ copy. copy ≡ terms.now) }
{
    let mut copy = List::new(alloc);
    for term in terms {
        copy.push(term.copy(alloc)?)?;
    }
    Ok(copy)
}

#[cycle(copy)]
fn copy_pairs(pairs: &[Pair], alloc: Global) -> Result<Pairs, NoMemory>
    ensures { IfOk result (λ copy. copy ≡ pairs.now) }
{
    let mut copy = List::new(alloc);
    for pair in pairs {
        copy.push(pair.copy(alloc)?)?;
    }
    Ok(copy)
}

impl Attribute {
    pub fn copy(&self, alloc: Global) -> Result<Attribute, NoMemory>
        ensures { IfOk result (λ attribute. attribute ≡ self.now) }
    {
        let key = self.key.copy(alloc)?;
        let value = self.value.copy(alloc)?;
        Ok(Attribute { key, value })
    }
}

impl Duplicate for Class {
    fn copy(&self, _alloc: Global) -> Result<Class, NoMemory> {
        Ok(*self)
    }
}

impl Duplicate for Bits {
    fn copy(&self, alloc: Global) -> Result<Bits, NoMemory> {
        Bits::copy(self, alloc)
    }
}

impl Duplicate for Term {
    fn copy(&self, alloc: Global) -> Result<Term, NoMemory> {
        Term::copy(self, alloc)
    }
}

impl Duplicate for Pair {
    fn copy(&self, alloc: Global) -> Result<Pair, NoMemory> {
        Pair::copy(self, alloc)
    }
}

impl Duplicate for Attribute {
    fn copy(&self, alloc: Global) -> Result<Attribute, NoMemory> {
        Attribute::copy(self, alloc)
    }
}
