use std::fs;
use std::test::Fail;

/// A kind of cases: what it shows of a row, in lines that are set in.
pub trait Show {
    fn show(&self, rt: &HostRuntime, row: &str) -> Result<(), Fail>;
}

/// Shows the rows of a file, and below each what comes of it. A line that begins with `##` is a heading.
pub fn show_all<K: Show>(rt: &HostRuntime, kind: &K, rows: &str) -> Result<(), Fail> {
    let rows = fs::read_to_string(rt, rows)?;
    for row in rows.as_str().lines() {
        println!(rt; "{row}")?;
        if !row.is_empty() && !row.starts_with("##") {
            kind.show(rt, row)?;
        }
    }
    Ok(())
}
