ghost use Rattle.erl_term.specs.WellFormed.{IsNormal};

use erl_term::Term;
use std::test::Fail;
use term_text::write_term;

/// Ends a line with the text of a term, behind what it is.
pub fn show_term(rt: &HostRuntime, what: &str, term: &Term) -> Result<(), Fail>
    requires { IsNormal term.now }
{
    let printed = write_term(rt.alloc(), term)?;
    let mut text = String::new(rt.alloc());
    for character in printed.as_slice() {
        text.push(*character)?;
    }
    println!(rt; "{what} {text}")?;
    Ok(())
}
