//! Names, places, refusals, the list and box types that every other crate is built of, and parts of slices and of
//! wholes.
//!
//! A `List` of three items that gets a fourth by `push` has those three and then it; a `Boxed` value reads as the
//! value. So a type that is built of them, as a term, is plain data to a contract, and holds itself.
//!
//! Sound, since lists and boxes are formers, as std's own are, so the checker knows the parts of what is built of
//! them. `let_go` promises only that it ends: what it lets go of is not seen again.
//!
//! A list holds at most 2^32 - 1 items. Text is not encoded here.
#![tactic(auto)]

mod boxed;
mod duplicate;
mod ids;
mod list;
mod memory;
mod name;
mod parts;
mod refusal;
mod slices;

pub use boxed::Boxed;
pub use duplicate::Duplicate;
pub use ids::{BlockId, ChainId, FunKey, LabelId, NodeId, Place, SiteId, VarId};
pub use list::{Bytes, List, Text};
pub use memory::NoMemory;
pub use name::Name;
pub use parts::{both, let_go, three};
pub use refusal::{Fault, Kind, LimitName, Outside, Refusal, ScopeFault};
pub use slices::{behind, front};
