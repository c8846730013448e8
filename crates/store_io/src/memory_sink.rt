ghost use Rattle.store_io.specs.Causes.{Rose};
ghost use Rattle.store_io.specs.Files.{Puts};
ghost use Rattle.std.specs.Prelude.{◌≡◌, ◌≢◌, ◌↔◌, ◌-◌, Some, [], IfOk, IsErr, OnErr, OnOk, length, min, ◌≤◌, ◌<◌, vec_len, vec_capacity, max};

use crate::sink::Sink;
use crate::slot::Slot;
use crate::store::Failed;
use erl_base::NoMemory;
use std::alloc::Global;

/// A sink in memory. It takes no memory in the calls of `Sink`.
#[derive(Drop)]
pub struct MemorySink {
    slot: Slot,
    faults: u64,
}

impl MemorySink {
    ghost use Rattle.store_io.specs.Sinks.{put_bytes, sink_room, sink_faults};

    pub fn new(alloc: Global) -> MemorySink
        ensures bytes { put_bytes result ≡ [] }
        ensures room { sink_room result ≡ 0 }
    {
        MemorySink {
            slot: Slot::new(alloc),
            faults: 0,
        }
    }

    /// Makes the room the greater of n and the room before.
    pub fn reserve(&mut self, n: u64) -> Result<(), NoMemory>
        ensures ok { OnOk result (sink_room self.new ≡ max (sink_room self.old) n) }
        ensures bytes { put_bytes self.new ≡ put_bytes self.old }
        ensures err { OnErr result (sink_room self.new ≡ sink_room self.old) }
        ensures count { sink_faults self.new ≡ sink_faults self.old }
    {
        self.slot.reserve(n as usize)
    }

    pub fn bytes(&self) -> &[u8]
        ensures { result.now ≡ put_bytes self.now }
    {
        if self.slot.is_file {
            self.slot.bytes.as_slice()
        } else {
            &[]
        }
    }
}

impl Sink for MemorySink {
    ghost use Rattle.store_io.specs.Sinks.{put_bytes, sink_room, sink_faults};

    ghost bytes = { λ s. Some (put_bytes s) };

    ghost faults = { λ s. s.faults };

    fn put(&mut self, piece: &[u8]) -> Result<usize, Failed>
        ensures within { IfOk result (λ n. n ≤ length piece.now) }
        ensures takes { IfOk result (λ n. 0 < length piece.now → 0 < n) }
        ensures bytes { Puts piece.now result (put_bytes self.old) (put_bytes self.new) }
        ensures faults { sink_faults self.old ≤ sink_faults self.new }
        ensures failed { OnErr result (Rose (sink_faults self.old) (sink_faults self.new)) }
        ensures full { IsErr result ↔ ((piece.now ≢ []) × (sink_room self.old ≤ length (put_bytes self.old))) }
        ensures err { OnErr result (put_bytes self.new ≡ put_bytes self.old) }
        ensures fits { IfOk result
            (λ n. n ≡ min (length piece.now) (sink_room self.old - length (put_bytes self.old))) }
        ensures room { sink_room self.new ≡ sink_room self.old }
    {
        match self.slot.append(piece) {
            Ok(count) => Ok(count),
            Err(refused) => {
                self.faults = self.faults.saturating_add(1);
                Err(refused)
            }
        }
    }
}
