ghost use Rattle.std.specs.Prelude.{◌≡◌, ◌⊎◌, ◌↔◌, ℕ, ◌<◌, ◌≤◌, List, Option, None, IsSome, IfSome, IfOk, OnErr, IsErr, length};
ghost use Rattle.std.specs.Option.{IsSomeAnd};
ghost use Rattle.store_io.specs.Causes.{Rose};
ghost use Rattle.store_io.specs.Files.{Told, Alike, Same, OthersStay, Loads, Creates, Appends, HasNoRoom};

use thiserror::Error;

/// A call on a store or a sink failed.
#[derive(Clone, Copy, Debug, PartialEq, Eq, Error)]
#[error("failed")]
pub struct Failed;

/// Files by their names. A store may tell its files, and then its rooms; it counts the faults of its own.
pub trait Store {
    /// Its files and its rooms, of a store that tells them, and the counts of its faults.
    ghost told: { Self → Told };

    /// Whether `append` may be given this piece for this name. A store that asks nothing keeps the default.
    ghost may_append: { Self → List ℕ → List ℕ → Type 0 } = { λ _ _ _. Unit {0} };

    /// Loads bytes of the file from place `at` on, at most as many as `piece` has, and says how many. The bytes of
    /// `piece` behind them are any.
    fn load(&mut self, name: &str, at: u64, piece: &mut [u8]) -> Result<usize, Failed>
        ensures within { IfOk result (λ n. n ≤ length piece.new) }
        ensures files { Alike (told self.old).files (told self.new).files (λ old new.
            Same old new × Loads (old name.now) at piece.new result) }
        ensures rooms { Alike (told self.old).rooms (told self.new).rooms Same }
        ensures reads { (told self.old).read_faults ≤ (told self.new).read_faults }
        ensures writes { (told self.new).write_faults ≡ (told self.old).write_faults }
        ensures failed { OnErr result (Rose (told self.old).read_faults (told self.new).read_faults
            ⊎ IsSomeAnd (told self.old).files (λ f. f name.now ≡ None)) }
        ensures count { IfSome (told self.old).rooms (λ r. (told self.new).read_faults ≡ (told self.old).read_faults) }
        ensures absent { IfSome (told self.old).rooms (λ r. IfSome (told self.old).files (λ f.
            IsErr result ↔ (f name.now ≡ None))) };

    /// Makes the file, empty.
    fn create(&mut self, name: &str) -> Result<(), Failed>
        ensures files { Alike (told self.old).files (told self.new).files (λ old new.
            OthersStay name.now old new × Creates result (old name.now) (new name.now)) }
        ensures rooms { Alike (told self.old).rooms (told self.new).rooms Same }
        ensures reads { (told self.new).read_faults ≡ (told self.old).read_faults }
        ensures writes { (told self.old).write_faults ≤ (told self.new).write_faults }
        ensures failed { OnErr result (Rose (told self.old).write_faults (told self.new).write_faults) }
        ensures known { IfSome (told self.old).rooms (λ r. IsErr result ↔ (r name.now ≡ None)) };

    /// Adds the first bytes of a piece to the end of the file, and says how many; an absent file counts as empty.
    fn append(&mut self, name: &str, piece: &[u8]) -> Result<usize, Failed>
        requires { may_append self.old name.now piece.now }
        ensures within { IfOk result (λ n. n ≤ length piece.now) }
        ensures takes { IfOk result (λ n. 0 < length piece.now → 0 < n) }
        ensures files { Alike (told self.old).files (told self.new).files (λ old new.
            OthersStay name.now old new × Appends piece.now result (old name.now) (new name.now)) }
        ensures rooms { Alike (told self.old).rooms (told self.new).rooms Same }
        ensures reads { (told self.new).read_faults ≡ (told self.old).read_faults }
        ensures writes { (told self.old).write_faults ≤ (told self.new).write_faults }
        ensures failed { OnErr result (Rose (told self.old).write_faults (told self.new).write_faults) }
        ensures room { IfSome (told self.old).rooms (λ r. IfSome (told self.old).files (λ f.
            IsErr result ↔ HasNoRoom (r name.now) (f name.now) piece.now)) };

    /// A store that tells its rooms tells its files.
    ghost rooms_with_files: { (s : Self) → IsSome (told s).rooms → IsSome (told s).files };
}
