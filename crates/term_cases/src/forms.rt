// A row is a text of forms. What is shown is each form, behind the number of characters before it, and then the
// place where the text is no form, if there is one.
use case_rows::{bytes_of, show_term};
use form_read::{form_start, next_form, place_at};
use std::test::Fail;
use term_read::Unread;
use utf8_text::characters;

pub fn show(rt: &HostRuntime, row: &str) -> Result<(), Fail> {
    let alloc = rt.alloc();
    let bytes = bytes_of(alloc, row)?;
    let text = characters(alloc, &[bytes.as_slice()])?;
    let whole = text.as_slice();
    let mut rest = whole;
    for _ in 0..whole.len() {
        if rest.len() > whole.len() {
            return Ok(());
        }
        let start = form_start(whole.len(), rest);
        match next_form(rest, alloc) {
            Ok(None) => return Ok(()),
            Ok(Some((term, behind))) => {
                print!(rt; "    {start}")?;
                show_term(rt, "", &term)?;
                rest = behind;
            }
            Err(Unread::Syntax) => {
                let place = place_at(whole, start);
                println!(rt; "    refused at {}:{}", place.line, place.column)?;
                return Ok(());
            }
            Err(Unread::NoMemory) => return Err(Fail::from(erl_base::NoMemory)),
        }
    }
    Ok(())
}
