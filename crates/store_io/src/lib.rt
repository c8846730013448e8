//! Files and sinks with counts of their faults, and whole reads and writes over them.
//!
//! `load_all` reads a file in pieces of 4,096 bytes and gives the whole of it. `store_all` creates a file and appends
//! such pieces; where that fails, the store has counted a fault, and the file holds a prefix, or what it held before,
//! or is not there.
//!
//! Files are known by their names, and what a store or a sink tells of its contents is what contracts speak of. The
//! objects in memory tell everything; those of the system tell nothing and only count their faults: they are trusted
//! to do what the operating system says, so no clause refuses a `RealStore` that makes nothing or a `load` of its that
//! gives no byte.
#![tactic(auto)]

mod faulty;
mod memory;
mod memory_sink;
mod real;
mod sink;
mod slot;
mod std_sink;
mod store;
mod whole;

pub use faulty::{CallNumbers, FaultySink, FaultyStore};
pub use memory::MemoryStore;
pub use memory_sink::MemorySink;
pub use real::RealStore;
pub use sink::Sink;
pub use std_sink::StdSink;
pub use store::{Failed, Store};
pub use whole::{LoadFault, MAX_FILE, load_all, put_all, store_all};
