ghost use Rattle.std.specs.Prelude.{◌≡◌, ◌⊎◌, ◌<◌, ◌≤◌, ◌+◌, ◌++◌, Some, None, IfSome, IfOk, OnOk, OnErr, length, take, drop, Err, ℕ, ◌-◌};
ghost use Rattle.std.specs.Option.{IsSomeAnd};
ghost use Rattle.store_io.specs.Causes.{Rose};
ghost use Rattle.store_io.specs.Files.{Alike, Same, OthersStay, Stores, PutsAll, LacksRoom};

use crate::sink::Sink;
use crate::store::{Failed, Store};
use erl_base::{List, NoMemory};
use std::alloc::Global;
use thiserror::Error;

/// The most bytes that one append is given.
const PIECE: usize = 4096;

/// The most bytes of a file that is read whole.
pub const MAX_FILE: usize = 16777216;

#[derive(Clone, Copy, Debug, PartialEq, Eq, Error)]
pub enum LoadFault {
    #[error("cannot be read")]
    Failed,
    #[error("too large")]
    TooLarge,
    #[error("out of memory")]
    NoMemory,
}

/// Makes the file hold these bytes. Each append is given the next 4,096 of them, or all that are left if they are
/// fewer.
pub fn store_all<S: Store>(store: &mut S, name: &str, bytes: &[u8]) -> Result<(), Failed>
    requires { (s : S) → (done : ℕ) → done < length bytes.now
        → S.may_append s name.now (take 4096 (drop done bytes.now)) }
    ensures files { Alike (S.told store.old).files (S.told store.new).files (λ old new.
        OthersStay name.now old new × Stores bytes.now result (old name.now) (new name.now)) }
    ensures rooms { Alike (S.told store.old).rooms (S.told store.new).rooms Same }
    ensures reads { (S.told store.new).read_faults ≡ (S.told store.old).read_faults }
    ensures writes { (S.told store.old).write_faults ≤ (S.told store.new).write_faults }
    ensures failed { OnErr result (Rose (S.told store.old).write_faults (S.told store.new).write_faults) }
    ensures no_room { IfSome (S.told store.old).rooms (λ r. OnErr result (LacksRoom (r name.now) bytes.now)) }
{
    store.create(name)?;
    let mut done = 0;
    while done < bytes.len() {
        done += store.append(name, first_piece(&bytes[done..]))?;
    }
    Ok(())
}

/// The next piece of what is left.
#[tactic(auto, using(std::proofs::lemmas::List::take_min))]
fn first_piece(rest: &[u8]) -> &[u8]
    ensures { result.now ≡ take 4096 rest.entry.now }
{
    &rest[..PIECE.min(rest.len())]
}

/// Puts all the bytes.
pub fn put_all<O: Sink>(sink: &mut O, bytes: &[u8]) -> Result<(), Failed>
    ensures bytes { Alike (O.bytes sink.old) (O.bytes sink.new) (PutsAll bytes.now result) }
    ensures faults { O.faults sink.old ≤ O.faults sink.new }
    ensures failed { OnErr result (Rose (O.faults sink.old) (O.faults sink.new)) }
{
    let mut done = 0;
    while done < bytes.len() {
        done += sink.put(&bytes[done..])?;
    }
    Ok(())
}

/// Reads a whole file, of at most 16,777,216 bytes.
pub fn load_all<S: Store>(alloc: Global, store: &mut S, name: &str) -> Result<List<u8>, LoadFault>
    ensures files { Alike (S.told store.old).files (S.told store.new).files Same }
    ensures bytes { IfOk result (λ bytes. IfSome (S.told store.old).files (λ f. f name.now ≡ Some bytes)) }
    ensures size { IfOk result (λ bytes. length bytes ≤ MAX_FILE) }
    ensures reads { (S.told store.old).read_faults ≤ (S.told store.new).read_faults }
    ensures writes { (S.told store.new).write_faults ≡ (S.told store.old).write_faults }
    ensures rooms { Alike (S.told store.old).rooms (S.told store.new).rooms Same }
    ensures failed { result ≡ Err LoadFault.Failed
        → Rose (S.told store.old).read_faults (S.told store.new).read_faults
        ⊎ IsSomeAnd (S.told store.old).files (λ f. f name.now ≡ None) }
    ensures absent { IfSome (S.told store.old).files (λ f. f name.now ≡ None → result ≡ Err LoadFault.Failed) }
    ensures count { IfSome (S.told store.old).rooms
        (λ r. (S.told store.new).read_faults ≡ (S.told store.old).read_faults) }
    ensures too_large { result ≡ Err LoadFault.TooLarge → IfSome (S.told store.old).files (λ f.
        (bytes : _) × (f name.now ≡ Some bytes) × (MAX_FILE < length bytes)) }
{
    let mut bytes = Vec::new(alloc);
    let mut piece = [0u8; 4096];
    loop {
        let count = match store.load(name, bytes.len() as u64, &mut piece) {
            Ok(count) => count,
            Err(Failed) => return Err(LoadFault::Failed),
        };
        if count == 0 {
            return Ok(List::from_vec(bytes));
        }
        if count > MAX_FILE - bytes.len() {
            return Err(LoadFault::TooLarge);
        }
        if bytes.extend_from_slice(&piece[..count]).is_err() {
            return Err(LoadFault::NoMemory);
        }
    }
}
