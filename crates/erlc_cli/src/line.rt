// The line of each answer as a table: a row is the pieces that are put one behind the other.
ghost use Rattle.std.specs.Prelude.{◌≡◌, map};
ghost use Rattle.erlc_cli.specs.Lines.{piece_view, pieces_of, refusal_pieces, scope_pieces, outside_pieces, limit_pieces};

use crate::status::Status;
use erl_base::{Kind, LimitName, Outside, ScopeFault};

/// A piece of a line: a text, the name of IN or of OUT, or a number of a refusal.
pub enum Piece {
    Text(&'static str),
    Input,
    Output,
    Line,
    Column,
    Count,
}

/// A row of pieces behind the place of a refusal.
macro_rules! at_place {
    ($($piece:expr),*) => {
        &[Piece::Input, Piece::Text(":"), Piece::Line, Piece::Text(":"), Piece::Column, Piece::Text(": "), $($piece),*]
    };
}

/// The line of a status. `Done` has none.
pub fn pieces_of(status: &Status) -> &'static [Piece]
    ensures { map piece_view result.now ≡ pieces_of status.now }
{
    match status {
        Status::Done => &[],
        Status::Refused(refusal) => refusal_pieces(refusal.kind),
        Status::Usage => &[
            Piece::Text("usage: erlc_core compile IN OUT, check IN, list PASS IN, "),
            Piece::Text("trace S FUN ARGS SCRIPT LIMIT, sample N, verify S\n"),
        ],
        Status::ReadFault => &[Piece::Input, Piece::Text(": cannot be read\n")],
        Status::WriteFault => &[Piece::Output, Piece::Text(": cannot be written\n")],
        Status::NoMemory => &[Piece::Text("out of memory\n")],
        Status::Unsafe => &[Piece::Input, Piece::Text(": unsafe\n")],
        Status::Unfinished => &[Piece::Input, Piece::Text(": not ended\n")],
        Status::Beyond => &[Piece::Input, Piece::Text(": value out of range\n")],
    }
}

fn refusal_pieces(kind: Kind) -> &'static [Piece]
    ensures { map piece_view result.now ≡ refusal_pieces kind }
{
    match kind {
        Kind::TooLarge => &[Piece::Input, Piece::Text(": larger than 16777216 bytes\n")],
        Kind::NotUtf8 => at_place!(Piece::Text("not UTF-8\n")),
        Kind::Syntax => at_place!(Piece::Text("syntax\n")),
        Kind::Scope(fault) => scope_pieces(fault),
        Kind::Profile(outside) => outside_pieces(outside),
        Kind::Limit(name, _) => limit_pieces(name),
        Kind::AsmSyntax => at_place!(Piece::Text("assembly syntax\n")),
        Kind::Script => &[Piece::Input, Piece::Text(": no script for this run\n")],
    }
}

fn scope_pieces(fault: ScopeFault) -> &'static [Piece]
    ensures { map piece_view result.now ≡ scope_pieces fault }
{
    match fault {
        ScopeFault::UnboundVariable => at_place!(Piece::Text("unbound variable\n")),
        ScopeFault::UnboundFunction => at_place!(Piece::Text("unbound function\n")),
        ScopeFault::DoubledVariable => at_place!(Piece::Text("doubled variable\n")),
        ScopeFault::DoubledFunction => at_place!(Piece::Text("doubled function\n")),
        ScopeFault::MissingExport => at_place!(Piece::Text("missing export\n")),
        ScopeFault::WrongArity => at_place!(Piece::Text("wrong arity\n")),
        ScopeFault::WrongDegree => at_place!(Piece::Text("wrong degree\n")),
        ScopeFault::ClauseWidth => at_place!(Piece::Text("wrong clause width\n")),
        ScopeFault::GuardForm => at_place!(Piece::Text("guard form\n")),
    }
}

fn outside_pieces(outside: Outside) -> &'static [Piece]
    ensures { map piece_view result.now ≡ outside_pieces outside }
{
    match outside {
        Outside::Float => at_place!(Piece::Text("outside the profile: float\n")),
        Outside::Primop => at_place!(Piece::Text("outside the profile: primop\n")),
        Outside::FloatFunction => at_place!(Piece::Text("outside the profile: float function\n")),
        Outside::SegmentType => at_place!(Piece::Text("outside the profile: segment type\n")),
        Outside::Native => at_place!(Piece::Text("outside the profile: native\n")),
        Outside::SegmentForm => at_place!(Piece::Text("outside the profile: segment form\n")),
        Outside::NotBuilt => at_place!(Piece::Text("outside the profile: not built\n")),
    }
}

fn limit_pieces(name: LimitName) -> &'static [Piece]
    ensures { map piece_view result.now ≡ limit_pieces name }
{
    match name {
        LimitName::Integer => at_place!(
            Piece::Text("integer literal of "),
            Piece::Count,
            Piece::Text(" digits\n")
        ),
        LimitName::Atom => at_place!(
            Piece::Text("atom of "),
            Piece::Count,
            Piece::Text(" characters\n")
        ),
        LimitName::Arity => at_place!(Piece::Text("arity "), Piece::Count, Piece::Text("\n")),
        LimitName::Nodes => at_place!(Piece::Count, Piece::Text(" nodes\n")),
        LimitName::Definitions => at_place!(Piece::Count, Piece::Text(" definitions\n")),
        LimitName::Receive => at_place!(
            Piece::Text("receive of "),
            Piece::Count,
            Piece::Text(" nodes\n")
        ),
        LimitName::Nesting => at_place!(Piece::Text("nesting "), Piece::Count, Piece::Text("\n")),
    }
}
