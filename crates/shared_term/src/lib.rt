//! Terms that share their parts: what runs on terms takes a part or puts one in front at no cost of what hangs on it.
//!
//! The list `[1,2,3]` is three cells. `tail` of it is the second cell, held twice from then on, and not a copy; `cons`
//! puts a cell before it. A bit string is a range of bytes that its parts share. `view` gives the plain term that a
//! value stands for, and each call says what it gives in plain terms. Each compound keeps how deep its deepest part
//! nests, so that depth is known at once; that this is right, and that the keys of maps rise, is `IsWhole`, which calls
//! ask for and give. A map's key is sought by halves; `put` copies pairs, and shares what they hold.
//!
//! The catch: a list is let go of cell by cell in a loop, as far as nobody else holds the rest; everything else takes
//! stack as deep as it nests. Nothing is answered sooner where two values are one cell, and a growth past 2^32 - 1
//! levels is refused as one without memory is.
#![tactic(auto)]

mod build;
mod convert;
mod counts;
mod maps;
mod octets;
mod order;
mod parts;
mod plain;
mod value;

pub use build::{atom, cons, extern_value, fun_value, tuple};
pub use convert::{from_term, to_term};
pub use maps::put;
pub use order::compare;
pub use value::{BitRange, Cell, External, Local, MapPairs, Row, Value, ValuePair};
