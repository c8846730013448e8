// Pieces of bytes into the characters of a text.
ghost use Rattle.std.specs.Prelude.{◌≡◌, ◌+◌, ◌<◌, ◌≤◌, [], ◌++◌, length, drop, chars, IfOk, OnOk, OnErr, IfErr, IsUtf8, Ok, Err, is_some, flat_map};
ghost use Rattle.std.specs.Str.Lossy.{utf8_valid_len, utf8_error_len};
ghost use Rattle.utf8_text.specs.Places.{start, place_after};
ghost use Rattle.utf8_text.specs.PiecesState.{IsFed};
ghost use Rattle.utf8_text.specs.Utf8Text.{BeginsText, IsRefused, RefusesStart, Leaves, RefusesWhole, RefusesPieces};
ghost use Rattle.erl_base.specs.declared.refusal.Refusal.{Refusal};
ghost use Rattle.erl_base.specs.declared.refusal.Fault.TheVariants.{Refused};
ghost use Rattle.erl_base.specs.declared.refusal.Kind.TheVariants.{NotUtf8};

use crate::place::past;
use erl_base::{Fault, Kind, Place, Refusal, behind, front};
use std::alloc::{AllocError, Global};
use std::marker::Model;
use std::str;

/// A text that comes in pieces. Contracts see it as the bytes so far.
#[derive(Debug, Drop)]
pub struct Pieces {
    bytes: Vec<u8>,
    // How many bytes, from the first on, are whole characters.
    whole: usize,
    // Where the bytes stopped beginning a text.
    broken: Option<Place>,
}

fn refused(place: Place) -> Fault
    ensures { result ≡ Refused (record { kind = NotUtf8; place = place }) }
{
    Fault::Refused(Refusal {
        kind: Kind::NotUtf8,
        place,
    })
}

// How many bytes at the front are text, and whether what follows them begins no character.
fn text_front(bytes: &[u8]) -> (usize, bool)
    ensures len { result.0 ≡ utf8_valid_len bytes.now }
    ensures broken { result.1 ≡ is_some (utf8_error_len (drop result.0 bytes.now)) }
    ensures fits { result.0 ≤ length bytes.now }
{
    match str::from_utf8(bytes) {
        Ok(_) => (bytes.len(), false),
        Err(error) => (error.valid_up_to(), error.error_len().is_some()),
    }
}

// The place after the text that the bytes spell.
fn text_end(bytes: &[u8]) -> Place
    requires { IsUtf8 bytes.now }
    ensures { result ≡ place_after (chars bytes.now) start }
{
    match str::from_utf8(bytes) {
        Ok(text) => end_of(text),
        Err(_) => unreachable!(),
    }
}

fn end_of(text: &str) -> Place
    ensures { result ≡ place_after (chars text.now) start }
{
    let mut place = Place { line: 1, column: 1 };
    for c in text.chars() {
        place = past(c, place);
    }
    place
}

// Adds the piece, and gives how many bytes are whole characters and where the bytes stopped beginning a text.
fn take_piece(
    bytes: &mut Vec<u8>,
    whole: usize,
    piece: &[u8],
) -> Result<(usize, Option<Place>), AllocError>
    requires { whole ≡ utf8_valid_len bytes.old.items }
    ensures added { OnOk result (bytes.new.items ≡ bytes.old.items ++ piece.now) }
    ensures fed { IfOk result (λ fed. IsFed bytes.new.items fed.0 fed.1) }
    ensures err { OnErr result (bytes.new.items ≡ bytes.old.items) }
{
    bytes.extend_from_slice(piece)?;
    let (size, broken) = text_front(behind(bytes.as_slice(), whole));
    let whole = whole + size;
    if broken {
        let place = text_end(front(bytes.as_slice(), whole));
        Ok((whole, Some(place)))
    } else {
        Ok((whole, None))
    }
}

fn characters_of(alloc: Global, text: &str) -> Result<Vec<char>, AllocError>
    ensures { IfOk result (λ characters. characters.items ≡ chars text.now) }
{
    text.chars().collect(alloc)
}

impl Model for Pieces {
    ghost use Rattle.std.specs.Prelude.{List, ℕ};
    ghost use Rattle.utf8_text.specs.PiecesState.{IsFed};

    ghost Value = { List ℕ };

    ghost view = { λ p. p.bytes.items };

    ghost invariant = { λ p. IsFed p.bytes.items p.whole p.broken };
}

impl Pieces {
    /// A text of no bytes. It takes no memory.
    pub fn new(alloc: Global) -> Pieces
        ensures { result ≡ [] }
    {
        Pieces {
            bytes: Vec::new(alloc),
            whole: 0,
            broken: None,
        }
    }

    /// Takes the next piece of the text. `NotUtf8` exactly where the bytes begin no text, with the place just after
    /// their longest front that is one, and again after it; want of memory leaves all as it was.
    pub fn feed(&mut self, piece: &[u8]) -> Result<(), Fault>
        ensures ok { OnOk result ((self.new ≡ self.old ++ piece.now) × BeginsText self.new) }
        ensures refused { IfErr result (λ fault. RefusesStart (self.old ++ piece.now) fault) }
        ensures left { IfErr result (λ fault. Leaves self.old self.new fault) }
        ensures again { (refusal : Refusal) → IsRefused self.old refusal → result ≡ Err (Refused refusal) }
    {
        if let Some(place) = self.broken {
            return Err(refused(place));
        }
        let (whole, broken) = take_piece(&mut self.bytes, self.whole, piece)?;
        self.whole = whole;
        self.broken = broken;
        if let Some(place) = broken {
            return Err(refused(place));
        }
        Ok(())
    }

    /// The characters of the whole text; `NotUtf8` exactly where the bytes are none.
    pub fn finish(self, alloc: Global) -> Result<Vec<char>, Fault>
        ensures ok { IfOk result (λ characters. IsUtf8 self × (characters.items ≡ chars self)) }
        ensures refused { IfErr result (λ fault. RefusesWhole self fault) }
    {
        let Pieces {
            bytes,
            whole,
            broken,
        } = self;
        if let Some(place) = broken {
            return Err(refused(place));
        }
        match str::from_utf8(bytes.as_slice()) {
            Ok(text) => Ok(characters_of(alloc, text)?),
            Err(_) => Err(refused(text_end(front(bytes.as_slice(), whole)))),
        }
    }
}

/// The characters of the text that the pieces make. They do not depend on the cuts, nor does the place of a refusal.
pub fn characters(alloc: Global, pieces: &[&[u8]]) -> Result<Vec<char>, Fault>
    ensures ok { let text = flat_map (λ piece. piece.now) pieces.now in
        IfOk result (λ characters. IsUtf8 text × (characters.items ≡ chars text)) }
    ensures refused { IfErr result (λ fault. RefusesPieces (flat_map (λ piece. piece.now) pieces.now) fault) }
{
    let mut text = Pieces::new(alloc);
    for piece in pieces {
        text.feed(piece)?;
    }
    text.finish(alloc)
}
