// A row is the texts of two terms, a bar between them. Shown is how they compare, and how they do the other way round.
use case_rows::bytes_of;
use erl_term::compare;
use std::test::Fail;
use term_read::read_term;

pub fn show(rt: &HostRuntime, row: &str) -> Result<(), Fail> {
    let alloc = rt.alloc();
    let (first, second) = row.split_once(" | ").ok_or("one term alone")?;
    let bytes = bytes_of(alloc, first)?;
    let first = read_term(alloc, bytes.as_slice())?;
    let bytes = bytes_of(alloc, second)?;
    let second = read_term(alloc, bytes.as_slice())?;
    let forth = compare(&first, &second);
    let back = compare(&second, &first);
    println!(rt; "    {forth:?}, the other way {back:?}")?;
    Ok(())
}
