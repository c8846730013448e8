//! The first of the faults of a text.
//!
//! A clause of the wrong width at 3:5, an unbound variable at 2:9 and a wrong degree at 2:9 are met in this order; the
//! unbound variable is told, whose place comes first, and which stands before a wrong degree in the table of faults.
//!
//! Sound, since faults are ordered by place, table and count, and no two different ones tie. So whoever keeps the
//! earlier one on the way has the first at the end, in whatever order they are met.
//!
//! Which faults a text has is said elsewhere, and they are not sorted.
#![tactic(auto)]

mod kept;
mod laws;

pub use kept::{answer, keep, keep_if};
pub use laws::{first_is_found, first_is_unique};
