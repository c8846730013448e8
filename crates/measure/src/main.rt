//! Measures calls over a file, for `bin/bench`: `measure tokens FILE` tells how many tokens a text has, `measure syntax
//! FILE` whether it is the text of a module, `measure term FILE` how many bytes the printed text of a term has,
//! `measure values FILE` how its two copies compare, how many steps along it found an item, and two sums of its
//! integers, `measure lists FILE` how many items the lists in a list have. With `timed` in front it tells what each step
//! took, in microseconds, and what the system says of the process, which has the most memory that it took (`VmHWM`).
#![tactic(auto)]

mod clock;
mod lists;
mod syntax;
mod terms;
mod tokens;
mod values;

use clock::Clock;
use std::env;
use std::test::Fail;

const USAGE: &str =
    "usage: measure [timed] SUBJECT FILE, of the subjects tokens, syntax, term, values, lists";

fn measured(rt: &HostRuntime, subject: &str, clock: &mut Clock, text: &[u8]) -> Result<(), Fail> {
    match subject {
        "tokens" => Ok(tokens::measure(rt, clock, text)?),
        "syntax" => Ok(syntax::measure(rt, clock, text)?),
        "term" => Ok(terms::measure(rt, clock, text)?),
        "values" => values::measure(rt, clock, text),
        "lists" => lists::measure(rt, clock, text),
        _ => {
            println!(rt; "{USAGE}")?;
            Ok(())
        }
    }
}

fn main(rt: HostRuntime) -> Result<(), Fail> {
    let words: Vec<String> = env::args(&rt)?.collect(rt.alloc())?;
    match words.as_slice() {
        [_, subject, file] => {
            let text = std::fs::read(&rt, file.as_str())?;
            measured(&rt, subject.as_str(), &mut Clock::silent(), text.as_slice())
        }
        [_, timed, subject, file] if timed.as_str() == "timed" => {
            let mut clock = Clock::started(&rt)?;
            let text = std::fs::read(&rt, file.as_str())?;
            clock.tell(&rt, "load")?;
            measured(&rt, subject.as_str(), &mut clock, text.as_slice())?;
            let process = std::fs::read_to_string(&rt, "/proc/self/status")?;
            print!(rt; "{process}")?;
            Ok(())
        }
        _ => {
            println!(rt; "{USAGE}")?;
            Ok(())
        }
    }
}
