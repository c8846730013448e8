ghost use Rattle.std.specs.Prelude.{refl, ◌≡◌, ◌≢◌, ◌⊎◌, ◌↔◌, ℕ, Contains, ◌+◌, ◌-◌, ◌^◌, ◌<◌, ◌≤◌, Some, None, [], IsTrue, IsErr, IfOk, IfSome, OnErr, OnOk, min, length, take};
ghost use Rattle.std.specs.Option.{option_copied, IsSomeAnd};
ghost use Rattle.store_io.specs.Causes.{Rose};
ghost use Rattle.store_io.specs.Faulty.{held_files, held_rooms, store_calls, planned, NextFails, read_count, write_count, put_faults, held_bytes, held_room, sink_calls, sink_planned, NextPutFails};
ghost use Rattle.store_io.specs.Files.{Files, Rooms, Alike, Same, OthersStay, Loads, Creates, Appends, HasNoRoom, Puts};
ghost use Rattle.store_io.specs.Sinks.{put_bytes, sink_room};
ghost use Rattle.store_io.specs.Slots.{told_files, told_rooms};

use crate::memory::MemoryStore;
use crate::memory_sink::MemorySink;
use crate::sink::Sink;
use crate::store::{Failed, Store};
use erl_base::List;

/// Numbers of calls, which count from 0.
pub type CallNumbers = List<u64>;

/// A store in memory whose calls with these numbers fail, all its calls counted. A failing call raises its own count
/// of faults and changes nothing else. It tells its files, and no rooms.
#[derive(Drop)]
pub struct FaultyStore {
    inner: MemoryStore,
    failing: CallNumbers,
    calls: u64,
    read_faults: u64,
    write_faults: u64,
}

impl FaultyStore {
    pub fn new(inner: MemoryStore, failing: CallNumbers) -> FaultyStore
        ensures files { Same (told_files inner) (held_files result) }
        ensures rooms { Same (told_rooms inner) (held_rooms result) }
        ensures planned { planned result ≡ failing }
        ensures calls { store_calls result ≡ 0 }
    {
        FaultyStore {
            inner,
            failing,
            calls: 0,
            read_faults: 0,
            write_faults: 0,
        }
    }

    /// The bytes of a file.
    pub fn file(&self, name: &str) -> Option<&[u8]>
        ensures { option_copied result ≡ held_files self.now name.now }
    {
        self.inner.file(name)
    }
}

/// Whether the call with this number is one that fails.
fn fails(failing: &CallNumbers, number: u64) -> bool
    ensures { IsTrue result ↔ Contains failing.now number }
{
    failing.as_slice().contains(&number)
}

impl Store for FaultyStore {
    ghost told = { λ s. record {
      files = Some (held_files s);
      rooms = None;
      read_faults = s.read_faults;
      write_faults = s.write_faults;
    } };

    ghost rooms_with_files = { λ s told. refl };

    fn load(&mut self, name: &str, at: u64, piece: &mut [u8]) -> Result<usize, Failed>
        ensures within { IfOk result (λ n. n ≤ length piece.new) }
        ensures files { Same (held_files self.old) (held_files self.new)
            × Loads (held_files self.old name.now) at piece.new result }
        ensures reads { read_count self.old ≤ read_count self.new }
        ensures writes { write_count self.new ≡ write_count self.old }
        ensures failed { OnErr result (Rose (read_count self.old) (read_count self.new)
            ⊎ (held_files self.old name.now ≡ None)) }
        ensures fails { NextFails self.old → IsErr result × Rose (read_count self.old) (read_count self.new) }
        ensures works { ¬ NextFails self.old → (IsErr result ↔ (held_files self.old name.now ≡ None))
            × (read_count self.new ≡ read_count self.old) }
        ensures plan { planned self.new ≡ planned self.old }
        ensures calls { store_calls self.new ≡ min (store_calls self.old + 1) (2 ^ 64 - 1) }
        ensures kept_rooms { Same (held_rooms self.old) (held_rooms self.new) }
    {
        let number = self.calls;
        self.calls = number.saturating_add(1);
        if fails(&self.failing, number) {
            self.read_faults = self.read_faults.saturating_add(1);
            return Err(Failed);
        }
        self.inner.load(name, at, piece)
    }

    fn create(&mut self, name: &str) -> Result<(), Failed>
        ensures files { OthersStay name.now (held_files self.old) (held_files self.new)
            × Creates result (held_files self.old name.now) (held_files self.new name.now) }
        ensures reads { read_count self.new ≡ read_count self.old }
        ensures writes { write_count self.old ≤ write_count self.new }
        ensures failed { OnErr result (Rose (write_count self.old) (write_count self.new)) }
        ensures fails { NextFails self.old → IsErr result × Same (held_files self.old) (held_files self.new) }
        ensures works { ¬ NextFails self.old → (IsErr result ↔ (held_rooms self.old name.now ≡ None)) }
        ensures plan { planned self.new ≡ planned self.old }
        ensures calls { store_calls self.new ≡ min (store_calls self.old + 1) (2 ^ 64 - 1) }
        ensures kept_rooms { Same (held_rooms self.old) (held_rooms self.new) }
    {
        let number = self.calls;
        self.calls = number.saturating_add(1);
        if fails(&self.failing, number) {
            self.write_faults = self.write_faults.saturating_add(1);
            return Err(Failed);
        }
        match self.inner.create(name) {
            Ok(()) => Ok(()),
            Err(refused) => {
                self.write_faults = self.write_faults.saturating_add(1);
                Err(refused)
            }
        }
    }

    fn append(&mut self, name: &str, piece: &[u8]) -> Result<usize, Failed>
        ensures within { IfOk result (λ n. n ≤ length piece.now) }
        ensures takes { IfOk result (λ n. 0 < length piece.now → 0 < n) }
        ensures files { OthersStay name.now (held_files self.old) (held_files self.new)
            × Appends piece.now result (held_files self.old name.now) (held_files self.new name.now) }
        ensures reads { read_count self.new ≡ read_count self.old }
        ensures writes { write_count self.old ≤ write_count self.new }
        ensures failed { OnErr result (Rose (write_count self.old) (write_count self.new)) }
        ensures fails { NextFails self.old → IsErr result × Same (held_files self.old) (held_files self.new) }
        ensures works { ¬ NextFails self.old →
            (IsErr result ↔ HasNoRoom (held_rooms self.old name.now) (held_files self.old name.now) piece.now) }
        ensures plan { planned self.new ≡ planned self.old }
        ensures calls { store_calls self.new ≡ min (store_calls self.old + 1) (2 ^ 64 - 1) }
        ensures kept_rooms { Same (held_rooms self.old) (held_rooms self.new) }
    {
        let number = self.calls;
        self.calls = number.saturating_add(1);
        if fails(&self.failing, number) {
            self.write_faults = self.write_faults.saturating_add(1);
            return Err(Failed);
        }
        match self.inner.append(name, piece) {
            Ok(count) => Ok(count),
            Err(refused) => {
                self.write_faults = self.write_faults.saturating_add(1);
                Err(refused)
            }
        }
    }
}

/// A sink in memory whose calls with these numbers fail. A failing call raises the count of faults and changes
/// nothing else.
#[derive(Drop)]
pub struct FaultySink {
    inner: MemorySink,
    failing: CallNumbers,
    calls: u64,
    faults: u64,
}

impl FaultySink {
    pub fn new(inner: MemorySink, failing: CallNumbers) -> FaultySink
        ensures bytes { held_bytes result ≡ put_bytes inner }
        ensures room { held_room result ≡ sink_room inner }
        ensures planned { sink_planned result ≡ failing }
        ensures calls { sink_calls result ≡ 0 }
    {
        FaultySink {
            inner,
            failing,
            calls: 0,
            faults: 0,
        }
    }

    /// The bytes that were put.
    pub fn bytes(&self) -> &[u8]
        ensures { result.now ≡ held_bytes self.now }
    {
        self.inner.bytes()
    }
}

impl Sink for FaultySink {
    ghost bytes = { λ s. Some (held_bytes s) };

    ghost faults = { λ s. s.faults };

    fn put(&mut self, piece: &[u8]) -> Result<usize, Failed>
        ensures within { IfOk result (λ n. n ≤ length piece.now) }
        ensures takes { IfOk result (λ n. 0 < length piece.now → 0 < n) }
        ensures bytes { Puts piece.now result (held_bytes self.old) (held_bytes self.new) }
        ensures faults { put_faults self.old ≤ put_faults self.new }
        ensures failed { OnErr result (Rose (put_faults self.old) (put_faults self.new)) }
        ensures fails { NextPutFails self.old → IsErr result × (held_bytes self.new ≡ held_bytes self.old) }
        ensures works { ¬ NextPutFails self.old →
            (IsErr result ↔ ((piece.now ≢ []) × (held_room self.old ≤ length (held_bytes self.old)))) }
        ensures plan { sink_planned self.new ≡ sink_planned self.old }
        ensures calls { sink_calls self.new ≡ min (sink_calls self.old + 1) (2 ^ 64 - 1) }
        ensures kept_room { held_room self.new ≡ held_room self.old }
    {
        let number = self.calls;
        self.calls = number.saturating_add(1);
        if fails(&self.failing, number) {
            self.faults = self.faults.saturating_add(1);
            return Err(Failed);
        }
        match self.inner.put(piece) {
            Ok(count) => Ok(count),
            Err(refused) => {
                self.faults = self.faults.saturating_add(1);
                Err(refused)
            }
        }
    }
}
