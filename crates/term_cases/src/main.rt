//! Cases of terms: what the crates make of their texts, of their values, and of calls of listed functions, row by row
//! of a table, in one fixed form.
//!
//! A kind of cases is a file of rows in `data/` and a module that shows one row. Its output is the rows, and below
//! each, set in, what came out; the stored output is what must come:
//!
//! ```text
//! {a,b|1}
//!     refused at 1:1
//! ```
//!
//! How a row writes bytes, case_rows says. What is expected comes from outside and never from the program.
#![tactic(auto)]

mod answers;
mod forms;
mod insns;
mod order;
mod parts;
mod terms;
mod values;

use case_rows::{Show, show_all};
use std::test::Fail;

#[derive(Clone, Copy)]
enum Kind {
    Terms,
    Forms,
    Insns,
    Parts,
    Values,
    Answers,
    Order,
}

impl Show for Kind {
    fn show(&self, rt: &HostRuntime, row: &str) -> Result<(), Fail> {
        match self {
            Kind::Terms => terms::show(rt, row),
            Kind::Forms => forms::show(rt, row),
            Kind::Insns => insns::show(rt, row),
            Kind::Parts => parts::show(rt, row),
            Kind::Values => values::show(rt, row),
            Kind::Answers => answers::show(rt, row),
            Kind::Order => order::show(rt, row),
        }
    }
}

fn main(rt: HostRuntime) -> Result<(), Fail> {
    show_all(&rt, &Kind::Terms, "terms.rows")?;
    show_all(&rt, &Kind::Forms, "forms.rows")?;
    show_all(&rt, &Kind::Insns, "insns.rows")?;
    show_all(&rt, &Kind::Parts, "parts.rows")?;
    show_all(&rt, &Kind::Values, "values.rows")?;
    show_all(&rt, &Kind::Answers, "answers.rows")?;
    show_all(&rt, &Kind::Order, "order.rows")
}
