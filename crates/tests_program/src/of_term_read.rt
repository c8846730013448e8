// How deep terms nest.
use std::alloc::Global;
use std::test::Fail;
use term_read::read_term;

/// A term in this many brackets.
fn nested(alloc: Global, depth: usize, inside: &str) -> Result<String, Fail> {
    let mut text = String::new(alloc);
    for _ in 0..depth {
        text.push('[')?;
    }
    text.push_str(inside)?;
    for _ in 0..depth {
        text.push(']')?;
    }
    Ok(text)
}

#[test]
fn nesting_has_a_limit(rt: HostRuntime) -> Result<(), Fail> {
    let alloc = rt.alloc();
    for (inside, most) in [("", 2100), ("1", 2099), ("\"a\"", 2098)] {
        let text = nested(alloc, most, inside)?;
        assert!(rt; read_term(alloc, text.as_bytes()).is_ok());
        let deeper = nested(alloc, most + 1, inside)?;
        assert!(rt; read_term(alloc, deeper.as_bytes()).is_err());
    }
    Ok(())
}
