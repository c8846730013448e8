// A lexer that was given bytes that are no text.
use core_lex::Lexer;
use erl_base::{Fault, Kind, Place, Refusal};

#[test]
fn refuses_again(rt: HostRuntime) {
    let mut lexer = Lexer::new(rt.alloc());
    assert!(rt; lexer.feed(b"X\n\xe2").is_ok());
    let want = Refusal {
        kind: Kind::NotUtf8,
        place: Place { line: 2, column: 1 },
    };
    assert!(rt; lexer.feed(b"(") == Err(Fault::Refused(want)));
    assert!(rt; lexer.feed(b"") == Err(Fault::Refused(want)));
    assert!(rt;
        matches!(lexer.finish(rt.alloc()), Err(Fault::Refused(refusal)) if refusal == want)
    );
}
