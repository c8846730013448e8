// A term as text, both ways.
use crate::clock::Clock;
use std::io;
use term_read::read_term;
use term_text::write_term;

pub fn measure(rt: &HostRuntime, clock: &mut Clock, text: &[u8]) -> io::Result<()> {
    let read = read_term(rt.alloc(), text);
    clock.tell(rt, "read")?;
    match read {
        Ok(term) => {
            let written = write_term(rt.alloc(), &term);
            clock.tell(rt, "write")?;
            match written {
                Ok(bytes) => println!(rt; "{} bytes", bytes.as_slice().len())?,
                Err(_) => println!(rt; "no memory")?,
            }
        }
        Err(_) => println!(rt; "refused")?,
    }
    Ok(())
}
