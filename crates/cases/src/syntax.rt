// A row is a text, of pieces between ` ;; `, of which `3*x` is x three times. Shown is that it is a text, or its first
// fault.
use case_rows::bytes_of;
use core_lex::lex;
use core_syntax::check_syntax;
use erl_base::{Fault, Kind};
use std::test::Fail;

fn text_of(rt: &HostRuntime, row: &str) -> Result<Vec<u8>, Fail> {
    let mut text = Vec::new(rt.alloc());
    for piece in row.split(" ;; ") {
        let (count, repeated) = match piece.split_once('*') {
            Some((count, repeated)) => match count.parse::<u32>() {
                Ok(count) => (count, repeated),
                Err(_) => (1, piece),
            },
            None => (1, piece),
        };
        let bytes = bytes_of(rt.alloc(), repeated)?;
        for _ in 0..count {
            text.extend_from_slice(bytes.as_slice())?;
        }
    }
    Ok(text)
}

fn judged(rt: &HostRuntime, text: &[u8]) -> Result<(), Fault> {
    let tokens = lex(rt.alloc(), &[text])?;
    check_syntax(rt.alloc(), &tokens)
}

pub fn show(rt: &HostRuntime, row: &str) -> Result<(), Fail> {
    let text = text_of(rt, row)?;
    match judged(rt, text.as_slice()) {
        Ok(()) => println!(rt; "    text")?,
        Err(Fault::Refused(refusal)) => {
            match refusal.kind {
                Kind::Syntax => print!(rt; "    syntax")?,
                Kind::Limit(_, count) => print!(rt; "    limit {count}")?,
                _ => print!(rt; "    refused")?,
            }
            println!(rt; " at {}:{}", refusal.place.line, refusal.place.column)?;
        }
        Err(fault) => return Err(Fail::from(fault)),
    }
    Ok(())
}
