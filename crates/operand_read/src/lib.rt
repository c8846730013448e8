//! Operands of instructions, read from their terms, each by its kind. It knows no instructions.
//!
//! `{tr,{x,1},{t_atom,any}}` is X register 1 where a register or a source stands, and `{x,1023}` is nothing, since
//! there is no such register. `{f,0}` is no label, but for the kinds that may have none.
//!
//! `Operand` says of a type of the code what kind of operand it is, and what value of that kind it stands for. A `Row`
//! of types is read one behind the other, and its values are those of the kinds in a row. So what is read equals
//! `value_of` and `values_of` of insn_terms, and no value has to be asked again of what kind it is.
//!
//! The catch: terms must be in normal form, as those that are read of a text are.
#![tactic(auto)]

mod flags;
mod lists;
mod names;
mod numbers;
mod operand;
mod registers;
mod rows;
mod segments;
mod sources;
mod terms;

pub use flags::{FieldFlags, FlagList};
pub use lists::{Arguments, Counted, Field, One, Tagged, Two, WithSize};
pub use names::{Atom, Function};
pub use numbers::{
    Amount, Arity, EntryLabel, LabelOrNoFail, LabelOrZero, Live, NoLabel, OwnLabel, Site, Unit,
    XSlot, YSlot, Zero, bare_label,
};
pub use operand::{Operand, Row};
pub use rows::three;
pub use terms::{atom_of, behind, elements_of, is_word, items_of, number_of, pair_of};
