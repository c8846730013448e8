// The first fault so far.
ghost use Rattle.std.specs.Prelude.{◌≡◌, Some, None, IfOk, IfErr, ◌∷◌, []};
ghost use Rattle.first_fault.specs.FirstFault.{scope_row, outside_row, limit_row, kind_rank, comes_before, earlier, first_with, fault_if};

use erl_base::{Kind, LimitName, Outside, Place, Refusal, ScopeFault};

fn scope_row(fault: ScopeFault) -> u64
    ensures { result ≡ scope_row fault }
{
    match fault {
        ScopeFault::UnboundVariable => 0,
        ScopeFault::UnboundFunction => 1,
        ScopeFault::DoubledVariable => 2,
        ScopeFault::DoubledFunction => 3,
        ScopeFault::MissingExport => 4,
        ScopeFault::WrongArity => 5,
        ScopeFault::WrongDegree => 6,
        ScopeFault::ClauseWidth => 7,
        ScopeFault::GuardForm => 8,
    }
}

fn outside_row(outside: Outside) -> u64
    ensures { result ≡ outside_row outside }
{
    match outside {
        Outside::Float => 0,
        Outside::Primop => 1,
        Outside::FloatFunction => 2,
        Outside::SegmentType => 3,
        Outside::Native => 4,
        Outside::SegmentForm => 5,
        Outside::NotBuilt => 6,
    }
}

fn limit_row(name: LimitName) -> u64
    ensures { result ≡ limit_row name }
{
    match name {
        LimitName::Integer => 0,
        LimitName::Atom => 1,
        LimitName::Arity => 2,
        LimitName::Nodes => 3,
        LimitName::Definitions => 4,
        LimitName::Receive => 5,
        LimitName::Nesting => 6,
    }
}

// The table, the row and the count of a kind.
fn kind_rank(kind: Kind) -> (u64, u64, u64)
    ensures { kind_rank kind ≡ result.0 ∷ result.1 ∷ result.2 ∷ [] }
{
    match kind {
        Kind::TooLarge => (0, 0, 0),
        Kind::NotUtf8 => (1, 0, 0),
        Kind::Syntax => (2, 0, 0),
        Kind::Scope(fault) => (3, scope_row(fault), 0),
        Kind::Profile(outside) => (4, outside_row(outside), 0),
        Kind::Limit(name, count) => (5, limit_row(name), count),
        Kind::AsmSyntax => (6, 0, 0),
        Kind::Script => (7, 0, 0),
    }
}

fn comes_before(fault: Refusal, other: Refusal) -> bool
    ensures { result ≡ comes_before fault other }
{
    let (table, row, count) = kind_rank(fault.kind);
    let (other_table, other_row, other_count) = kind_rank(other.kind);
    if fault.place.line != other.place.line {
        return fault.place.line < other.place.line;
    }
    if fault.place.column != other.place.column {
        return fault.place.column < other.place.column;
    }
    if table != other_table {
        return table < other_table;
    }
    if row != other_row {
        return row < other_row;
    }
    count < other_count
}

/// The first of the faults so far and one more.
pub fn keep(first: Option<Refusal>, fault: Refusal) -> Option<Refusal>
    ensures { result ≡ Some (earlier first fault) }
{
    match first {
        None => Some(fault),
        Some(first) => {
            if comes_before(fault, first) {
                Some(fault)
            } else {
                Some(first)
            }
        }
    }
}

/// The first of the faults so far and one more, if it holds.
pub fn keep_if(first: Option<Refusal>, holds: bool, place: Place, kind: Kind) -> Option<Refusal>
    ensures { result ≡ first_with first (fault_if holds place kind) }
{
    if holds {
        return keep(first, Refusal { kind, place });
    }
    first
}

/// The answer of a check whose first fault is known.
pub fn answer(first: Option<Refusal>) -> Result<(), Refusal>
    ensures ok { IfOk result (λ _. first ≡ None) }
    ensures refused { IfErr result (λ fault. first ≡ Some fault) }
{
    match first {
        None => Ok(()),
        Some(fault) => Err(fault),
    }
}
