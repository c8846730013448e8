// The tokens of a text.
use crate::clock::Clock;
use core_lex::lex;
use std::io;

pub fn measure(rt: &HostRuntime, clock: &mut Clock, text: &[u8]) -> io::Result<()> {
    let found = lex(rt.alloc(), &[text]);
    clock.tell(rt, "lex")?;
    match found {
        Ok(tokens) => println!(rt; "{} tokens", tokens.as_slice().len())?,
        Err(_) => println!(rt; "refused")?,
    }
    Ok(())
}
