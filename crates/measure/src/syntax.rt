// Whether a text is that of a module.
use crate::clock::Clock;
use core_lex::lex;
use core_syntax::check_syntax;
use erl_base::Fault;
use std::io;

pub fn measure(rt: &HostRuntime, clock: &mut Clock, text: &[u8]) -> io::Result<()> {
    let found = lex(rt.alloc(), &[text]);
    clock.tell(rt, "lex")?;
    let Ok(tokens) = found else {
        println!(rt; "refused")?;
        return Ok(());
    };
    let answer = check_syntax(rt.alloc(), &tokens);
    clock.tell(rt, "syntax")?;
    match answer {
        Ok(()) => println!(rt; "a text")?,
        Err(Fault::Refused(refusal)) => {
            println!(rt;
                "no text at {}:{}",
                refusal.place.line, refusal.place.column
            )?;
        }
        Err(Fault::NoMemory) => println!(rt; "no memory")?,
    }
    Ok(())
}
