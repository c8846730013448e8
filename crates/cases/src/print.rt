// A row is the text of a module, and what is shown is the assembly text that it is compiled to, or the refusal.
use asm_text::print;
use case_rows::bytes_of;
use erl_base::Fault;
use pass_line::compile;
use std::test::Fail;

pub fn show(rt: &HostRuntime, row: &str) -> Result<(), Fail> {
    let alloc = rt.alloc();
    let bytes = bytes_of(alloc, row)?;
    match compile(alloc, bytes.as_slice()) {
        Ok(module) => {
            let printed = print(alloc, &module)?;
            let mut text = String::new(alloc);
            for character in printed.as_slice() {
                text.push(*character)?;
            }
            for line in text.as_str().lines() {
                println!(rt; "    {line}")?;
            }
        }
        Err(Fault::Refused(refusal)) => {
            println!(rt;
                "    refused {:?} at {}:{}",
                refusal.kind, refusal.place.line, refusal.place.column
            )?;
        }
        Err(fault) => return Err(Fail::from(fault)),
    }
    Ok(())
}
