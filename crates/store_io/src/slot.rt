ghost use Rattle.std.specs.Prelude.{◌≡◌, ◌≢◌, ℕ, ◌+◌, ◌-◌, ◌<◌, ◌≤◌, ◌++◌, [], Some, None, true, ◌↔◌, IsErr, IfOk, OnOk, OnErr, max, min, take, length, vec_len, vec_capacity};
ghost use Rattle.store_io.specs.Files.{IsPartAt, Appends, content};

use crate::store::Failed;
use erl_base::NoMemory;
use std::alloc::Global;

/// One known name: its file, if it has one, and its room.
#[derive(Drop)]
pub struct Slot {
    pub bytes: Vec<u8>,
    pub is_file: bool,
    pub room: usize,
    ghost within: { vec_len bytes ≤ room },
    ghost reserved: { room ≤ vec_capacity bytes },
}

impl Slot {
    ghost use Rattle.store_io.specs.Slots.{file_of};

    /// A name without a file and without room.
    pub fn new(alloc: Global) -> Slot
        ensures file { file_of result ≡ None }
        ensures bytes { result.bytes.items ≡ [] }
        ensures room { result.room ≡ 0 }
    {
        Slot {
            bytes: Vec::new(alloc),
            is_file: false,
            room: 0,
        }
    }

    /// Makes the room the greater of n and the room before.
    pub fn reserve(&mut self, n: usize) -> Result<(), NoMemory>
        ensures ok { OnOk result (self.new.room ≡ max self.old.room n) }
        ensures err { OnErr result (self.new.room ≡ self.old.room) }
        ensures file { file_of self.new ≡ file_of self.old }
        ensures bytes { self.new.bytes.items ≡ self.old.bytes.items }
    {
        if n > self.room {
            self.bytes.reserve(n - self.bytes.len())?;
            self.room = n;
        }
        Ok(())
    }

    pub fn create(&mut self)
        ensures file { file_of self.new ≡ Some [] }
        ensures room { self.new.room ≡ self.old.room }
    {
        self.bytes.clear();
        self.is_file = true;
    }

    /// Makes an empty file where there is none.
    fn make(&mut self)
        ensures file { self.new.is_file ≡ true }
        ensures bytes { self.new.bytes.items ≡ content (file_of self.old) }
        ensures room { self.new.room ≡ self.old.room }
    {
        if !self.is_file {
            self.create();
        }
    }

    /// How many bytes still fit.
    fn left(&self) -> usize
        ensures { result ≡ self.now.room - length (content (file_of self.now)) }
    {
        if self.is_file {
            self.room - self.bytes.len()
        } else {
            self.room
        }
    }

    /// Makes the file hold these bytes.
    pub fn fill(&mut self, bytes: &[u8])
        requires { length bytes.now ≤ self.old.room }
        ensures file { file_of self.new ≡ Some bytes.now }
        ensures room { self.new.room ≡ self.old.room }
    {
        self.create();
        self.bytes.extend_from_slice(bytes).unwrap();
    }

    /// Adds what still fits. It fails exactly where nothing of a piece fits.
    pub fn append(&mut self, piece: &[u8]) -> Result<usize, Failed>
        ensures file { Appends piece.now result (file_of self.old) (file_of self.new) }
        ensures count { IfOk result
            (λ n. n ≡ min (length piece.now) (self.old.room - length (content (file_of self.old)))) }
        ensures takes { IfOk result (λ n. 0 < length piece.now → 0 < n) }
        ensures failed { IsErr result ↔ ((piece.now ≢ []) × (self.old.room ≤ length (content (file_of self.old)))) }
        ensures err { OnErr result (file_of self.new ≡ file_of self.old) }
        ensures room { self.new.room ≡ self.old.room }
    {
        let count = piece.len().min(self.left());
        if count == 0 && !piece.is_empty() {
            return Err(Failed);
        }
        self.make();
        self.bytes.extend_from_slice(&piece[..count]).unwrap();
        Ok(count)
    }
}

/// Copies bytes from that place on, as many as fit.
pub fn read_at(bytes: &[u8], at: u64, piece: &mut [u8]) -> usize
    ensures within { result ≤ length piece.new }
    ensures part { IsPartAt bytes.now at piece.new result }
{
    let start = (at as usize).min(bytes.len());
    let count = piece.len().min(bytes.len() - start);
    piece[..count].copy_from_slice(&bytes[start..start + count]);
    count
}
