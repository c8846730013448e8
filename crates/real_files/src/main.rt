//! `run` over real files: each answer, its line, and what OUT then holds.
//!
//! What the system's files hold no contract tells, so a stored run shows it: a module of more than two pieces, an OUT
//! that was longer, one file for IN and OUT, and an IN that is missing.
#![tactic(auto)]

use erlc_cli::run;
use std::{fs, io};
use store_io::{MemorySink, RealStore, StdSink};

fn words_of(rt: &HostRuntime, text: &str) -> io::Result<Vec<String>> {
    let alloc = rt.alloc();
    let mut words = Vec::new(alloc);
    for word in text.split(' ') {
        words.push(String::from_str(alloc, word)?)?;
    }
    Ok(words)
}

/// Runs the words, and prints their code, the note, and what the file then holds.
fn show(rt: &HostRuntime, text: &str, output: &str) -> io::Result<()> {
    let alloc = rt.alloc();
    let words = words_of(rt, text)?;
    println!(rt; "== {text}")?;
    let mut store = RealStore::new(alloc, rt);
    let mut out = MemorySink::new(alloc);
    let mut notes = StdSink::new(rt.stdout());
    let status = run(alloc, words.as_slice(), &mut store, &mut out, &mut notes);
    println!(rt; "{}", status.code())?;
    match fs::read_to_string(rt, output) {
        Ok(text) => print!(rt; "{text}"),
        Err(_) => println!(rt; "no {output}"),
    }
}

fn main(rt: HostRuntime) -> io::Result<()> {
    show(&rt, "compile long.core long.S", "long.S")?;
    let old = vec![in rt.alloc(); b'x'; 9000]?;
    fs::write(&rt, "old.S", old.as_slice())?;
    show(&rt, "compile one.core old.S", "old.S")?;
    fs::copy(&rt, "one.core", "same.core")?;
    show(&rt, "compile same.core same.core", "same.core")?;
    show(&rt, "compile none.core none.S", "none.S")
}
