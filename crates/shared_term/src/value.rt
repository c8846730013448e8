ghost use Rattle.std.specs.Prelude.{◌≡◌, IfOk};
ghost use Rattle.erl_term.specs.Depth.{depth, depths};
ghost use Rattle.shared_term.specs.View.{view, range_view, is_within, IsWhole};

use erl_base::{Bytes, List, Name, NoMemory, SiteId};
use erl_term::Class;
use std::alloc::Global;
use std::mem::size_of;
use std::rc::Rc;

/// A value of Erlang whose parts are shared.
#[cycle(value)]
pub enum Value {
    Int(i128),
    Atom(Rc<Name>),
    Nil,
    Cons(Rc<Cell>),
    Tuple(Rc<Row>),
    Map(Rc<MapPairs>),
    Bits(BitRange),
    Fun(Rc<Local>),
    Extern(Rc<External>),
    Pid(u64),
    Reference(u64),
    Port(u64),
    RawTrace(Class),
}

/// A cell of a list; `deepest` is how deep the deepest of the items and of the tail nests.
#[cycle(value)]
#[derive(Drop)]
pub struct Cell {
    pub deepest: u32,
    pub head: Value,
    pub tail: Value,
}

// With its two counts a cell takes 96 bytes.
const _: () = prove!(size_of::<Cell>() <= 80);

/// The elements of a tuple.
#[cycle(value)]
#[derive(Drop)]
pub struct Row {
    pub deepest: u32,
    pub items: List<Value>,
}

/// The pairs of a map, in the order of their keys.
#[cycle(value)]
#[derive(Drop)]
pub struct MapPairs {
    pub deepest: u32,
    pub pairs: List<ValuePair>,
}

/// A key of a map and its value.
#[cycle(value)]
#[derive(Drop)]
pub struct ValuePair {
    pub key: Value,
    pub value: Value,
}

/// A fun of a module, with what it captured.
#[cycle(value)]
#[derive(Drop)]
pub struct Local {
    pub module: Name,
    pub site: SiteId,
    pub arity: u32,
    pub captured: Row,
}

/// A fun that names a function of a module.
#[derive(Drop)]
pub struct External {
    pub module: Name,
    pub name: Name,
    pub arity: u32,
}

/// `length` bits of the bytes, from the bit `from` on, the highest bit of a byte first.
#[derive(Drop)]
pub struct BitRange {
    pub bytes: Rc<Bytes>,
    pub from: u64,
    pub length: u64,
}

fn let_go<T: Drop>(_value: T) {}

// Along a list in a loop, for as long as nobody else holds the next cell.
impl Drop for Value {
    #[cycle(drop)]
    fn drop(mut self) {
        loop {
            match self {
                Value::Cons(cell) => match Rc::into_inner(cell) {
                    None => return,
                    Some(cell) => {
                        let Cell {
                            deepest: _,
                            head,
                            tail,
                        } = cell;
                        let_go(head);
                        self = tail;
                    }
                },
                Value::Int(_) => return,
                Value::Atom(name) => return let_go(name),
                Value::Nil => return,
                Value::Tuple(row) => return let_go(row),
                Value::Map(pairs) => return let_go(pairs),
                Value::Bits(range) => return let_go(range),
                Value::Fun(fun) => return let_go(fun),
                Value::Extern(fun) => return let_go(fun),
                Value::Pid(_) => return,
                Value::Reference(_) => return,
                Value::Port(_) => return,
                Value::RawTrace(_) => return,
            }
        }
    }
}

impl Value {
    /// The same value, held once more.
    pub fn share(&self) -> Result<Value, NoMemory>
        ensures same { IfOk result (λ value. view value ≡ view self.now) }
        ensures whole { IfOk result (λ value. IsWhole self.now → IsWhole value) }
    {
        match self {
            Value::Int(number) => Ok(Value::Int(*number)),
            Value::Atom(name) => Ok(Value::Atom(name.clone()?)),
            Value::Nil => Ok(Value::Nil),
            Value::Cons(cell) => Ok(Value::Cons(cell.clone()?)),
            Value::Tuple(row) => Ok(Value::Tuple(row.clone()?)),
            Value::Map(pairs) => Ok(Value::Map(pairs.clone()?)),
            Value::Bits(range) => Ok(Value::Bits(range.share()?)),
            Value::Fun(fun) => Ok(Value::Fun(fun.clone()?)),
            Value::Extern(fun) => Ok(Value::Extern(fun.clone()?)),
            Value::Pid(number) => Ok(Value::Pid(*number)),
            Value::Reference(number) => Ok(Value::Reference(*number)),
            Value::Port(number) => Ok(Value::Port(*number)),
            Value::RawTrace(class) => Ok(Value::RawTrace(*class)),
        }
    }

    /// How deep the value nests, the items and the tail of a list counted one deeper than it.
    #[tactic(auto, unfolding(erl_term::specs::Depth::depths))]
    pub fn depth(&self) -> u64
        requires { IsWhole self.now }
        ensures { result ≡ depth (view self.now) }
    {
        match self {
            Value::Cons(cell) => cell.deepest as u64 + 1,
            Value::Tuple(row) => row.deepest as u64 + 1,
            Value::Map(pairs) => pairs.deepest as u64 + 1,
            Value::Fun(fun) => fun.captured.deepest as u64 + 1,
            Value::Int(_)
            | Value::Atom(_)
            | Value::Nil
            | Value::Bits(_)
            | Value::Extern(_)
            | Value::Pid(_)
            | Value::Reference(_)
            | Value::Port(_)
            | Value::RawTrace(_) => 1,
        }
    }

    /// How deep its parts nest where it is the rest of a list.
    #[tactic(auto, unfolding(erl_term::specs::Depth::depths))]
    pub fn depth_as_rest(&self) -> u64
        requires { IsWhole self.now }
        ensures { result ≡ (depths (view self.now)).rest }
    {
        match self {
            Value::Cons(cell) => cell.deepest as u64,
            Value::Int(_)
            | Value::Atom(_)
            | Value::Nil
            | Value::Tuple(_)
            | Value::Map(_)
            | Value::Bits(_)
            | Value::Fun(_)
            | Value::Extern(_)
            | Value::Pid(_)
            | Value::Reference(_)
            | Value::Port(_)
            | Value::RawTrace(_) => self.depth(),
        }
    }
}

impl BitRange {
    pub fn share(&self) -> Result<BitRange, NoMemory>
        ensures same { IfOk result (λ range. range_view range ≡ range_view self.now) }
        ensures within { IfOk result (λ range. is_within range ≡ is_within self.now) }
    {
        Ok(BitRange {
            bytes: self.bytes.clone()?,
            from: self.from,
            length: self.length,
        })
    }
}
