// The line of an answer, put piece by piece: it takes no memory.
ghost use Rattle.std.specs.Prelude.{◌≡◌, ◌≤◌, OnErr, map};
ghost use Rattle.std.specs.List.{concat};
ghost use Rattle.store_io.specs.Causes.{Rose};
ghost use Rattle.store_io.specs.Files.{Alike, PutsAll};
ghost use Rattle.erlc_cli.specs.Lines.{line_of, text_of, named_place, named_count, passed_by, piece_view};
ghost use Rattle.erlc_cli.specs.Notes.{Noted};

use crate::line::{Piece, pieces_of};
use crate::status::Status;
use erl_base::{Kind, Place};
use itoa::Buffer;
use store_io::{Failed, Sink, put_all};

/// Puts the line of a status, for an action that reads `input` and writes `output`. A fault of the sink is not told.
pub fn note<N: Sink>(notes: &mut N, status: Status, input: &str, output: &str)
    ensures { Noted N.bytes N.faults (line_of status input.now output.now) notes.old notes.new }
{
    let _ = put_pieces(notes, pieces_of(&status), &status, input, output);
}

/// Puts the texts of pieces one behind the other.
fn put_pieces<N: Sink>(
    notes: &mut N,
    pieces: &[Piece],
    status: &Status,
    input: &str,
    output: &str,
) -> Result<(), Failed>
    ensures bytes { Alike (N.bytes notes.old) (N.bytes notes.new) (PutsAll
        (concat (map (λ piece. text_of status.now input.now output.now (piece_view piece)) pieces.now)) result) }
    ensures faults { N.faults notes.old ≤ N.faults notes.new }
    ensures failed { OnErr result (Rose (N.faults notes.old) (N.faults notes.new)) }
{
    for piece in pieces {
        let mut digits = Buffer::new();
        put_all(notes, bytes_of(piece, status, input, output, &mut digits))?;
    }
    Ok(())
}

/// The text of a piece; a number is written into `digits`.
fn bytes_of<'a>(
    piece: &Piece,
    status: &Status,
    input: &'a str,
    output: &'a str,
    digits: &'a mut Buffer,
) -> &'a [u8]
    ensures { result.now ≡ text_of status.now input.entry.now output.entry.now (piece_view piece.now) }
{
    match piece {
        Piece::Text(words) => words.as_bytes(),
        Piece::Input => input.as_bytes(),
        Piece::Output => output.as_bytes(),
        Piece::Line => digits.format(named_place(status).line).as_bytes(),
        Piece::Column => digits.format(named_place(status).column).as_bytes(),
        Piece::Count => digits.format(named_count(status)).as_bytes(),
    }
}

/// The place that a status names: 0, 0 where it names none.
fn named_place(status: &Status) -> Place
    ensures { result ≡ named_place status.now }
{
    match status {
        Status::Refused(refusal) => refusal.place,
        Status::Done
        | Status::Usage
        | Status::ReadFault
        | Status::WriteFault
        | Status::NoMemory
        | Status::Unsafe
        | Status::Unfinished
        | Status::Beyond => Place { line: 0, column: 0 },
    }
}

/// The count that a status names, 0 where it names none.
fn named_count(status: &Status) -> u64
    ensures { result ≡ named_count status.now }
{
    match status {
        Status::Refused(refusal) => passed_by(refusal.kind),
        Status::Done
        | Status::Usage
        | Status::ReadFault
        | Status::WriteFault
        | Status::NoMemory
        | Status::Unsafe
        | Status::Unfinished
        | Status::Beyond => 0,
    }
}

/// The count that passed a limit, 0 where the refusal is of another kind.
fn passed_by(kind: Kind) -> u64
    ensures { result ≡ passed_by kind }
{
    match kind {
        Kind::Limit(_, count) => count,
        Kind::TooLarge
        | Kind::NotUtf8
        | Kind::Syntax
        | Kind::Scope(_)
        | Kind::Profile(_)
        | Kind::AsmSyntax
        | Kind::Script => 0,
    }
}
