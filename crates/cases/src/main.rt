//! Cases of modules: what the crates make of their texts, row by row of a table, in one fixed form.
//!
//! A kind of cases is a file of rows in `data/` and a module that shows one row. Its output is the rows, and below
//! each, set in, what came out; the stored output is what must come:
//!
//! ```text
//! bad word~0a~ff
//!     refused at 2:1
//! ```
//!
//! How a row writes bytes, case_rows says. What is expected comes from outside and never from the program.
#![tactic(auto)]

mod calls;
mod cuts;
mod print;
mod syntax;
mod tokens;

use case_rows::{Show, show_all};
use std::test::Fail;

#[derive(Clone, Copy)]
enum Kind {
    Tokens,
    Syntax,
    Cuts,
    Print,
    Calls,
}

impl Show for Kind {
    fn show(&self, rt: &HostRuntime, row: &str) -> Result<(), Fail> {
        match self {
            Kind::Tokens => tokens::show(rt, row),
            Kind::Syntax => syntax::show(rt, row),
            Kind::Cuts => cuts::show(rt, row),
            Kind::Print => print::show(rt, row),
            Kind::Calls => calls::show(rt, row),
        }
    }
}

fn main(rt: HostRuntime) -> Result<(), Fail> {
    show_all(&rt, &Kind::Tokens, "tokens.rows")?;
    show_all(&rt, &Kind::Syntax, "syntax.rows")?;
    show_all(&rt, &Kind::Cuts, "cuts.rows")?;
    show_all(&rt, &Kind::Print, "print.rows")?;
    show_all(&rt, &Kind::Calls, "calls.rows")
}
