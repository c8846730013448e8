// A row is the text of a term, and what is shown is the printed text of the term that is read.
use case_rows::{bytes_of, show_term};
use erl_base::Fault;
use std::test::Fail;
use term_read::read_term;

pub fn show(rt: &HostRuntime, row: &str) -> Result<(), Fail> {
    let alloc = rt.alloc();
    let bytes = bytes_of(alloc, row)?;
    match read_term(alloc, bytes.as_slice()) {
        Ok(term) => show_term(rt, "   ", &term)?,
        Err(Fault::Refused(refusal)) => {
            println!(rt;
                "    refused at {}:{}",
                refusal.place.line, refusal.place.column
            )?;
        }
        Err(fault) => return Err(Fail::from(fault)),
    }
    Ok(())
}
