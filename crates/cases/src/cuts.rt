// A row is a text, and it is cut behind each of its tokens. Shown is how many cuts there are, how many of them have
// their first fault at their end, and how many are texts.
use case_rows::bytes_of;
use core_lex::lex;
use core_syntax::check_syntax;
use erl_base::{Fault, Kind, Place};
use std::test::Fail;

/// What a cut is.
enum Cut {
    Text,
    AtEnd,
    Elsewhere,
}

fn is_syntax_at(fault: &Fault, place: Place) -> bool {
    match fault {
        Fault::Refused(refusal) => refusal.kind == Kind::Syntax && refusal.place == place,
        Fault::NoMemory => false,
    }
}

fn judged(rt: &HostRuntime, text: &[u8]) -> Result<Cut, Fault> {
    let tokens = lex(rt.alloc(), &[text])?;
    let mut end = Place { line: 1, column: 1 };
    for token in tokens.as_slice() {
        end = token.place;
    }
    match check_syntax(rt.alloc(), &tokens) {
        Ok(()) => Ok(Cut::Text),
        Err(fault) => {
            if is_syntax_at(&fault, end) {
                Ok(Cut::AtEnd)
            } else {
                Ok(Cut::Elsewhere)
            }
        }
    }
}

pub fn show(rt: &HostRuntime, row: &str) -> Result<(), Fail> {
    let alloc = rt.alloc();
    let text = bytes_of(alloc, row)?;
    let tokens = lex(alloc, &[text.as_slice()])?;
    let mut cuts: u64 = 0;
    let mut at_end: u64 = 0;
    let mut texts: u64 = 0;
    for token in tokens.as_slice() {
        if token.from < token.to {
            cuts = cuts.wrapping_add(1);
            let front = text.as_slice().get(..token.to as usize).unwrap_or(&[]);
            match judged(rt, front)? {
                Cut::Text => texts = texts.wrapping_add(1),
                Cut::AtEnd => at_end = at_end.wrapping_add(1),
                Cut::Elsewhere => {}
            }
        }
    }
    println!(rt; "    {cuts} cuts, {at_end} at their end, {texts} texts")?;
    Ok(())
}
