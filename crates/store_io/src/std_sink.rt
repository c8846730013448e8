ghost use Rattle.std.specs.Prelude.{◌≡◌, ◌<◌, None};

use crate::sink::Sink;
use crate::store::Failed;
use std::io::Write;

/// The most bytes that wait for one write.
const MOST: usize = 4096;

/// Bytes that wait.
#[derive(Drop)]
struct Waiting {
    bytes: [u8; MOST],
    count: usize,
    ghost within: { count < 4096 },
}

/// A standard stream. It tells nothing, and counts its faults.
///
/// What is put waits until a line ends, or until 4,096 bytes wait, and then goes out in one write: lines of programs
/// that run side by side do not mix. What waits at the end goes out as the sink is dropped.
pub struct StdSink<W: Write + Drop> {
    stream: W,
    waiting: Waiting,
    faults: u64,
}

impl<W: Write + Drop> StdSink<W> {
    ghost use Rattle.store_io.specs.Real.{fault_count};

    /// A sink over a stream, without a counted fault.
    pub fn new(stream: W) -> StdSink<W>
        ensures { fault_count result ≡ 0 }
    {
        StdSink {
            stream,
            waiting: Waiting {
                bytes: [0; MOST],
                count: 0,
            },
            faults: 0,
        }
    }
}

impl<W: Write + Drop> Drop for StdSink<W> {
    fn drop(self) {
        let StdSink {
            mut stream,
            waiting,
            faults: _,
        } = self;
        let _ = stream.write_all(&waiting.bytes[..waiting.count]);
    }
}

impl<W: Write + Drop> Sink for StdSink<W> {
    ghost bytes = { λ s. None };

    ghost faults = { λ s. s.faults };

    fn put(&mut self, piece: &[u8]) -> Result<usize, Failed> {
        let waiting = &mut self.waiting;
        let taken = piece.len().min(MOST - waiting.count);
        let filled = waiting.count + taken;
        waiting.bytes[waiting.count..filled].copy_from_slice(&piece[..taken]);
        if filled < MOST && !waiting.bytes[..filled].ends_with(b"\n") {
            waiting.count = filled;
            return Ok(taken);
        }
        waiting.count = 0;
        match self.stream.write_all(&waiting.bytes[..filled]) {
            Ok(()) => Ok(taken),
            Err(_) => {
                self.faults = self.faults.saturating_add(1);
                Err(Failed)
            }
        }
    }
}
