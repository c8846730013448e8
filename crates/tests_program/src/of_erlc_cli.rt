// Stores and sinks that fail.
use erlc_cli::{Status, run};
use std::alloc::Global;
use std::test::Fail;
use store_io::{CallNumbers, FaultySink, FaultyStore, MemorySink, MemoryStore};

const ONE: &str = "module 'one' ['one'/0] attributes [] 'one'/0 = fun () -> 1 end";

const ASM: &str = "{module,one}.
{exports,[{one,0}]}.
{attributes,[]}.
{labels,3}.

{function,one,0,2}.
  {label,1}.
    {func_info,{atom,one},{atom,one},0}.
  {label,2}.
    {move,{integer,1},{x,0}}.
    return.
";

fn words_of(alloc: Global, text: &str) -> Result<Vec<String>, Fail> {
    let mut words = Vec::new(alloc);
    for word in text.split(' ') {
        words.push(String::from_str(alloc, word)?)?;
    }
    Ok(words)
}

fn numbers(alloc: Global, number: u64) -> Result<CallNumbers, Fail> {
    let mut failing = CallNumbers::new(alloc);
    failing.push(number)?;
    Ok(failing)
}

/// A store whose call with this number fails, and what is left of it: the calls are two loads, a create, an append.
#[derive(Drop)]
struct Failing {
    call: u64,
    status: Status,
    asm: Option<&'static str>,
}

#[test]
fn a_failing_call_is_told_and_leaves_the_input(rt: HostRuntime) -> Result<(), Fail> {
    let alloc = rt.alloc();
    let rows = [
        Failing {
            call: 0,
            status: Status::ReadFault,
            asm: None,
        },
        Failing {
            call: 1,
            status: Status::ReadFault,
            asm: None,
        },
        Failing {
            call: 2,
            status: Status::WriteFault,
            asm: None,
        },
        Failing {
            call: 3,
            status: Status::WriteFault,
            asm: Some(""),
        },
        Failing {
            call: 4,
            status: Status::Done,
            asm: Some(ASM),
        },
    ];
    for row in rows.iter() {
        let mut inner = MemoryStore::new(alloc);
        inner.add("in.core", ONE.as_bytes())?;
        inner.reserve("out.S", 10000)?;
        let mut store = FaultyStore::new(inner, numbers(alloc, row.call)?);
        let mut out = MemorySink::new(alloc);
        // The notes fail too, and change no status.
        let mut notes = FaultySink::new(MemorySink::new(alloc), numbers(alloc, 0)?);
        let words = words_of(alloc, "compile in.core out.S")?;
        let status = run(alloc, words.as_slice(), &mut store, &mut out, &mut notes);
        assert_eq!(rt; status, row.status);
        assert!(rt; store.file("in.core") == Some(ONE.as_bytes()));
        assert!(rt; store.file("out.S") == row.asm.map(|asm| asm.as_bytes()));
        assert!(rt; notes.bytes().is_empty());
    }
    Ok(())
}

/// A plain module of so many functions, whose assembly text is longer than 8,192 bytes.
fn long_module(alloc: Global) -> Result<String, Fail> {
    let mut text = String::from_str(alloc, "module 'long' [] attributes []")?;
    for number in 0..100u32 {
        text.push_str(format!(in alloc; " 'f{number}'/1 = fun (X) -> X")?.as_str())?;
    }
    text.push_str(" end")?;
    Ok(text)
}

#[test]
fn a_failing_third_append_leaves_two_pieces(rt: HostRuntime) -> Result<(), Fail> {
    let alloc = rt.alloc();
    let text = long_module(alloc)?;
    let mut inner = MemoryStore::new(alloc);
    inner.add("in.core", text.as_bytes())?;
    inner.reserve("out.S", 100000)?;
    // Two loads and the create come first.
    let mut store = FaultyStore::new(inner, numbers(alloc, 5)?);
    let mut out = MemorySink::new(alloc);
    let mut notes = MemorySink::new(alloc);
    notes.reserve(100)?;
    let words = words_of(alloc, "compile in.core out.S")?;
    let status = run(alloc, words.as_slice(), &mut store, &mut out, &mut notes);
    assert_eq!(rt; status, Status::WriteFault);
    assert!(rt; notes.bytes() == "out.S: cannot be written\n".as_bytes());
    assert_eq!(rt; store.file("out.S").map(|asm| asm.len()), Some(8192));
    Ok(())
}
