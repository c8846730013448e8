ghost use Rattle.std.specs.Prelude.{refl, min, ◌-◌, ◌≡◌, ◌≢◌, ℕ, ◌+◌, ◌<◌, ◌≤◌, Some, None, IfSome, OnOk, OnErr, IsErr, ◌↔◌, max, length, [], ◌⊎◌, IfOk};
ghost use Rattle.std.specs.Option.{option_copied, IsSomeAnd};
ghost use Rattle.store_io.specs.Causes.{Rose};
ghost use Rattle.store_io.specs.Files.{Files, Rooms, Alike, Same, OthersStay, Loads, Creates, Appends, HasNoRoom, content};
ghost use Rattle.store_io.specs.Slots.{told_files, told_rooms, room_of, write_count};

use crate::slot::{Slot, read_at};
use crate::store::{Failed, Store};
use erl_base::NoMemory;
use std::alloc::Global;
use std::collections::BTreeMap;

/// Files in memory. It takes no memory in the calls of `Store`.
#[derive(Drop)]
pub struct MemoryStore {
    alloc: Global,
    slots: BTreeMap<String, Slot>,
    write_faults: u64,
}

impl MemoryStore {
    /// A store without names.
    pub fn new(alloc: Global) -> MemoryStore
        ensures files { (n : _) → told_files result n ≡ None }
        ensures rooms { (n : _) → told_rooms result n ≡ None }
    {
        MemoryStore {
            alloc,
            slots: BTreeMap::new(alloc),
            write_faults: 0,
        }
    }

    /// Makes the name known, and its room the greater of `n` and the room before.
    pub fn reserve(&mut self, name: &str, n: u64) -> Result<(), NoMemory>
        ensures files { Same (told_files self.old) (told_files self.new) }
        ensures others { OthersStay name.now (told_rooms self.old) (told_rooms self.new) }
        ensures ok { OnOk result (told_rooms self.new name.now ≡ Some
            (max (room_of (told_rooms self.old name.now)) n)) }
        ensures err { OnErr result (Same (told_rooms self.old) (told_rooms self.new)) }
        ensures count { write_count self.new ≡ write_count self.old }
    {
        match self.slots.get_mut(name) {
            Some(slot) => slot.reserve(n as usize),
            None => self.know(name, n as usize),
        }
    }

    /// Makes a new name known.
    fn know(&mut self, name: &str, n: usize) -> Result<(), NoMemory>
        requires { told_rooms self.old name.now ≡ None }
        ensures files { Same (told_files self.old) (told_files self.new) }
        ensures others { OthersStay name.now (told_rooms self.old) (told_rooms self.new) }
        ensures ok { OnOk result (told_rooms self.new name.now ≡ Some n) }
        ensures err { OnErr result (Same (told_rooms self.old) (told_rooms self.new)) }
        ensures count { write_count self.new ≡ write_count self.old }
    {
        let mut slot = Slot::new(self.alloc);
        slot.reserve(n)?;
        let key = String::from_str(self.alloc, name)?;
        self.slots.insert(key, slot)?;
        Ok(())
    }

    /// Makes a file with these bytes, in the place of one of that name; its room is then the greater of their number
    /// and the room before.
    pub fn add(&mut self, name: &str, bytes: &[u8]) -> Result<(), NoMemory>
        ensures others { OthersStay name.now (told_files self.old) (told_files self.new) }
        ensures other_rooms { OthersStay name.now (told_rooms self.old) (told_rooms self.new) }
        ensures ok { OnOk result (told_files self.new name.now ≡ Some bytes.now) }
        ensures room { OnOk result (told_rooms self.new name.now ≡ Some
            (max (room_of (told_rooms self.old name.now)) (length bytes.now))) }
        ensures err { OnErr result (Same (told_files self.old) (told_files self.new)) }
        ensures err_rooms { OnErr result (Same (told_rooms self.old) (told_rooms self.new)) }
        ensures count { write_count self.new ≡ write_count self.old }
    {
        self.reserve(name, bytes.len() as u64)?;
        if let Some(slot) = self.slots.get_mut(name) {
            slot.fill(bytes);
        }
        Ok(())
    }

    /// The bytes of a file.
    pub fn file(&self, name: &str) -> Option<&[u8]>
        ensures { option_copied result ≡ told_files self.now name.now }
    {
        let slot = self.slots.get(name)?;
        if slot.is_file {
            Some(slot.bytes.as_slice())
        } else {
            None
        }
    }
}

impl Store for MemoryStore {
    ghost told = { λ s. record {
      files = Some (told_files s);
      rooms = Some (told_rooms s);
      read_faults = 0;
      write_faults = s.write_faults;
    } };

    ghost rooms_with_files = { λ s told. refl };

    fn load(&mut self, name: &str, at: u64, piece: &mut [u8]) -> Result<usize, Failed> {
        match self.slots.get(name) {
            Some(slot) if slot.is_file => Ok(read_at(slot.bytes.as_slice(), at, piece)),
            _ => Err(Failed),
        }
    }

    fn create(&mut self, name: &str) -> Result<(), Failed> {
        match self.slots.get_mut(name) {
            Some(slot) => {
                slot.create();
                Ok(())
            }
            None => {
                self.write_faults = self.write_faults.saturating_add(1);
                Err(Failed)
            }
        }
    }

    fn append(&mut self, name: &str, piece: &[u8]) -> Result<usize, Failed>
        ensures within { IfOk result (λ n. n ≤ length piece.now) }
        ensures takes { IfOk result (λ n. 0 < length piece.now → 0 < n) }
        ensures files { OthersStay name.now (told_files self.old) (told_files self.new)
            × Appends piece.now result (told_files self.old name.now) (told_files self.new name.now) }
        ensures rooms { Same (told_rooms self.old) (told_rooms self.new) }
        ensures writes { write_count self.old ≤ write_count self.new }
        ensures failed { OnErr result (Rose (write_count self.old) (write_count self.new)) }
        ensures room { IsErr result
            ↔ HasNoRoom (told_rooms self.old name.now) (told_files self.old name.now) piece.now }
        ensures err { OnErr result (Same (told_files self.old) (told_files self.new)) }
        ensures fits { IfOk result (λ n. n ≡ min (length piece.now)
            (room_of (told_rooms self.old name.now) - length (content (told_files self.old name.now)))) }
    {
        match self.slots.get_mut(name) {
            Some(slot) => match slot.append(piece) {
                Ok(count) => Ok(count),
                Err(refused) => {
                    self.write_faults = self.write_faults.saturating_add(1);
                    Err(refused)
                }
            },
            None => {
                self.write_faults = self.write_faults.saturating_add(1);
                Err(Failed)
            }
        }
    }
}
