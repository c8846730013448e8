// Of store_io: whole reads and writes over files in memory, a room that is full, and calls that fail by their number.
use std::alloc::Global;
use std::test::Fail;
use store_io::{
    CallNumbers, Failed, FaultySink, FaultyStore, LoadFault, MemorySink, MemoryStore, Sink, Store,
    load_all, put_all, store_all,
};

fn numbers(alloc: Global, number: u64) -> Result<CallNumbers, Fail> {
    let mut failing = CallNumbers::new(alloc);
    failing.push(number)?;
    Ok(failing)
}

#[test]
fn a_file_is_read_whole(rt: HostRuntime) -> Result<(), Fail> {
    let alloc = rt.alloc();
    let text = vec![in alloc; 7u8; 5000]?;
    let mut store = MemoryStore::new(alloc);
    store.add("in", text.as_slice())?;
    match load_all(alloc, &mut store, "in") {
        Ok(bytes) => assert!(rt; bytes.as_slice() == text.as_slice()),
        Err(_) => assert!(rt; false),
    }
    assert!(rt; matches!(load_all(alloc, &mut store, "out"), Err(LoadFault::Failed)));
    Ok(())
}

#[test]
fn a_full_room_refuses(rt: HostRuntime) -> Result<(), Fail> {
    let alloc = rt.alloc();
    let mut store = MemoryStore::new(alloc);
    store.reserve("out", 4)?;
    assert_eq!(rt; store.create("out"), Ok(()));
    assert_eq!(rt; store.append("out", b"12345"), Ok(4));
    assert_eq!(rt; store.append("out", b"5"), Err(Failed));
    let mut sink = MemorySink::new(alloc);
    sink.reserve(4)?;
    assert_eq!(rt; put_all(&mut sink, b"12345"), Err(Failed));
    assert!(rt; sink.bytes() == b"1234".as_slice());
    Ok(())
}

#[test]
fn a_failing_call_leaves_what_was_written(rt: HostRuntime) -> Result<(), Fail> {
    let alloc = rt.alloc();
    let text = vec![in alloc; 7u8; 9000]?;
    let mut inner = MemoryStore::new(alloc);
    inner.reserve("out", 9000)?;
    // Call 0 creates the file, so call 3 is the third append.
    let mut store = FaultyStore::new(inner, numbers(alloc, 3)?);
    assert_eq!(rt; store_all(&mut store, "out", text.as_slice()), Err(Failed));
    assert_eq!(rt; store.file("out").map(|bytes| bytes.len()), Some(8192));
    let mut inner = MemorySink::new(alloc);
    inner.reserve(8)?;
    let mut sink = FaultySink::new(inner, numbers(alloc, 1)?);
    assert_eq!(rt; sink.put(b"ab"), Ok(2));
    assert_eq!(rt; sink.put(b"cd"), Err(Failed));
    assert_eq!(rt; sink.put(b"ef"), Ok(2));
    assert!(rt; sink.bytes() == b"abef".as_slice());
    Ok(())
}
