// A row is a text, and what is shown is its tokens, each with its place and its bytes, or the place where it is no
// text.
use case_rows::bytes_of;
use core_lex::{LONG_SYMBOLS, SHORT_SYMBOLS, Symbol, Token, TokenKind, WORDS, Word, lex};
use erl_base::Fault;
use std::io;
use std::test::Fail;

fn word_spelled(word: Word) -> &'static str {
    for (spelling, listed) in WORDS {
        if listed == word {
            return spelling;
        }
    }
    ""
}

fn symbol_spelled(symbol: Symbol) -> &'static str {
    for (spelling, listed) in LONG_SYMBOLS {
        if listed == symbol {
            return spelling;
        }
    }
    for (spelling, listed) in SHORT_SYMBOLS {
        if listed == symbol {
            return spelling;
        }
    }
    ""
}

fn show_kind(rt: &HostRuntime, kind: &TokenKind) -> io::Result<()> {
    match kind {
        TokenKind::Word(word) => print!(rt; "    word {}", word_spelled(*word)),
        TokenKind::Symbol(symbol) => print!(rt; "    symbol {}", symbol_spelled(*symbol)),
        TokenKind::Variable(name) => print!(rt; "    variable {}", name.as_str()),
        TokenKind::Atom(name) => print!(rt; "    atom {:?}", name.as_str()),
        TokenKind::Number(false, number) => print!(rt; "    number {number}"),
        TokenKind::Number(true, number) => print!(rt; "    signed {number}"),
        TokenKind::Wide(digits) => print!(rt; "    wide {digits}"),
        TokenKind::Float => print!(rt; "    float"),
        TokenKind::Character(code) => print!(rt; "    character {code}"),
        TokenKind::Letters(codes) => print!(rt; "    letters {:?}", codes.as_slice()),
        TokenKind::Bad => print!(rt; "    bad"),
        TokenKind::End => print!(rt; "    end"),
    }
}

fn show_token(rt: &HostRuntime, token: &Token) -> io::Result<()> {
    show_kind(rt, &token.kind)?;
    println!(rt;
        " {}:{} {}-{}",
        token.place.line, token.place.column, token.from, token.to
    )
}

pub fn show(rt: &HostRuntime, row: &str) -> Result<(), Fail> {
    let alloc = rt.alloc();
    let bytes = bytes_of(alloc, row)?;
    match lex(alloc, &[bytes.as_slice()]) {
        Ok(tokens) => {
            for token in tokens.as_slice() {
                show_token(rt, token)?;
            }
        }
        Err(Fault::Refused(refusal)) => {
            println!(rt;
                "    refused at {}:{}",
                refusal.place.line, refusal.place.column
            )?;
        }
        Err(fault) => return Err(Fail::from(fault)),
    }
    Ok(())
}
