// A row is the words of a call, and behind bars what its store knows: `file NAME DATA` and `text NAME TEXT` are files,
// `room NAME NUMBER` is a name with room for so many bytes. Shown are the code, the notes, what went out, the files.
use case_rows::bytes_of;
use erlc_cli::run;
use std::fs;
use std::test::Fail;
use store_io::{MemorySink, MemoryStore};

/// The room of notes and of what goes out.
const ROOM: u64 = 100000;

fn words_of(rt: &HostRuntime, text: &str) -> Result<Vec<String>, Fail> {
    let alloc = rt.alloc();
    let mut words = Vec::new(alloc);
    for word in text.split(' ') {
        if !word.is_empty() {
            let bytes = bytes_of(alloc, word)?;
            words.push(String::from_str(alloc, std::str::from_utf8(bytes.as_slice())?)?)?;
        }
    }
    Ok(words)
}

/// What a part of a row gives a name.
fn give(rt: &HostRuntime, store: &mut MemoryStore, part: &str) -> Result<(), Fail> {
    let (what, rest) = part.split_once(' ').ok_or("a part without a name")?;
    let (name, value) = rest.split_once(' ').ok_or("a name without a value")?;
    match what {
        "file" => {
            let bytes = fs::read(rt, value)?;
            store.add(name, bytes.as_slice())?;
        }
        "text" => {
            let bytes = bytes_of(rt.alloc(), value)?;
            store.add(name, bytes.as_slice())?;
        }
        _ => store.reserve(name, value.parse::<u64>()?)?,
    }
    Ok(())
}

fn show_lines(rt: &HostRuntime, what: &str, bytes: &[u8]) -> Result<(), Fail> {
    match std::str::from_utf8(bytes) {
        Ok(text) => {
            for line in text.lines() {
                println!(rt; "    {what}: {line}")?;
            }
        }
        Err(_) => println!(rt; "    {what} is no text")?,
    }
    Ok(())
}

fn show_file(rt: &HostRuntime, store: &MemoryStore, part: &str) -> Result<(), Fail> {
    let name = part.split(' ').nth(1).ok_or("a part without a name")?;
    match store.file(name) {
        Some(bytes) => {
            println!(rt; "    {name} has {} bytes", bytes.len())?;
            show_lines(rt, name, bytes)
        }
        None => Ok(println!(rt; "    {name} is no file")?),
    }
}

pub fn show(rt: &HostRuntime, row: &str) -> Result<(), Fail> {
    let alloc = rt.alloc();
    let (asked, parts) = row.split_once(" | ").unwrap_or((row, ""));
    let words = words_of(rt, asked)?;
    let mut store = MemoryStore::new(alloc);
    let mut out = MemorySink::new(alloc);
    let mut notes = MemorySink::new(alloc);
    out.reserve(ROOM)?;
    notes.reserve(ROOM)?;
    for part in parts.split(" | ") {
        if !part.is_empty() {
            give(rt, &mut store, part)?;
        }
    }
    let status = run(alloc, words.as_slice(), &mut store, &mut out, &mut notes);
    println!(rt; "    code {}", status.code())?;
    show_lines(rt, "note", notes.bytes())?;
    show_lines(rt, "out", out.bytes())?;
    for part in parts.split(" | ") {
        if !part.is_empty() {
            show_file(rt, &store, part)?;
        }
    }
    Ok(())
}
