ghost use Rattle.std.specs.Prelude.{◌≡◌, ◌↔◌, IsTrue, map, chars};
ghost use Rattle.std.specs.Option.{option_map};
ghost use Rattle.bif_table.specs.Builtins as Plain;
ghost use Rattle.bif_table.specs.View.{bif_view, group_view};

use erl_base::{FunKey, Name};

/// A listed function of the module erlang. A number behind a name is the arity, where two functions have the name.
#[derive(Clone, Copy, Debug, PartialEq, Eq)]
pub enum Bif {
    Add,
    Subtract,
    Multiply,
    Plus,
    Negate,
    Div,
    Rem,
    Band,
    Bor,
    Bxor,
    Bnot,
    Bsl,
    Bsr,
    Abs,
    Round,
    Trunc,
    Ceil,
    Floor,
    Equals,
    Exactly,
    Differs,
    ExactlyNot,
    Below,
    AtMost,
    Above,
    AtLeast,
    And,
    Or,
    Xor,
    Not,
    IsAtom,
    IsBinary,
    IsBitstring,
    IsBoolean,
    IsFloat,
    IsFunction,
    IsInteger,
    IsList,
    IsMap,
    IsNumber,
    IsPid,
    IsPort,
    IsReference,
    IsTuple,
    IsFunction2,
    IsRecord2,
    IsRecord3,
    Element,
    TupleSize,
    Size,
    ByteSize,
    BitSize,
    Length,
    Hd,
    Tl,
    MapSize,
    IsMapKey,
    MapGet,
    OwnPid,
    Error1,
    Error2,
    Exit1,
    Throw1,
}

/// Who calls a function, and how.
#[derive(Clone, Copy)]
enum Group {
    /// Guards and bodies.
    Plain,
    /// Guards and bodies; the machine collects first, since its number may take room.
    Collecting,
    /// Bodies alone: it always raises.
    Raising,
}

/// What the table says of a function.
#[derive(Clone, Copy)]
struct Row {
    name: &'static str,
    arity: u32,
    group: Group,
}

/// All functions, in the order of the table.
const ALL: [Bif; 63] = [
    Bif::Add,
    Bif::Subtract,
    Bif::Multiply,
    Bif::Plus,
    Bif::Negate,
    Bif::Div,
    Bif::Rem,
    Bif::Band,
    Bif::Bor,
    Bif::Bxor,
    Bif::Bnot,
    Bif::Bsl,
    Bif::Bsr,
    Bif::Abs,
    Bif::Round,
    Bif::Trunc,
    Bif::Ceil,
    Bif::Floor,
    Bif::Equals,
    Bif::Exactly,
    Bif::Differs,
    Bif::ExactlyNot,
    Bif::Below,
    Bif::AtMost,
    Bif::Above,
    Bif::AtLeast,
    Bif::And,
    Bif::Or,
    Bif::Xor,
    Bif::Not,
    Bif::IsAtom,
    Bif::IsBinary,
    Bif::IsBitstring,
    Bif::IsBoolean,
    Bif::IsFloat,
    Bif::IsFunction,
    Bif::IsInteger,
    Bif::IsList,
    Bif::IsMap,
    Bif::IsNumber,
    Bif::IsPid,
    Bif::IsPort,
    Bif::IsReference,
    Bif::IsTuple,
    Bif::IsFunction2,
    Bif::IsRecord2,
    Bif::IsRecord3,
    Bif::Element,
    Bif::TupleSize,
    Bif::Size,
    Bif::ByteSize,
    Bif::BitSize,
    Bif::Length,
    Bif::Hd,
    Bif::Tl,
    Bif::MapSize,
    Bif::IsMapKey,
    Bif::MapGet,
    Bif::OwnPid,
    Bif::Error1,
    Bif::Error2,
    Bif::Exit1,
    Bif::Throw1,
];

/// The listed function of this name and arity in the module erlang.
pub fn lookup(key: &FunKey) -> Option<Bif>
    ensures { option_map bif_view result ≡ Plain.lookup key.now.name key.now.arity }
{
    find(&ALL, key)
}

/// Whether a guard may call it; the others always raise.
pub fn is_guard(bif: Bif) -> bool
    ensures { result ≡ Plain.is_guard (bif_view bif) }
{
    match bif.row().group {
        Group::Plain | Group::Collecting => true,
        Group::Raising => false,
    }
}

impl Bif {
    pub fn name(self) -> &'static str
        ensures { result.now ≡ Plain.bif_name (bif_view self) }
    {
        self.row().name
    }

    pub fn arity(self) -> u32
        ensures { result ≡ Plain.arity_of (bif_view self) }
    {
        self.row().arity
    }

    /// Whether the machine collects for it, since its number may take room.
    pub fn is_collecting(self) -> bool
        ensures { result ≡ Plain.is_collecting (bif_view self) }
    {
        match self.row().group {
            Group::Collecting => true,
            Group::Plain | Group::Raising => false,
        }
    }

    // The table.
    fn row(self) -> Row
        ensures name { result.name.now ≡ Plain.bif_name (bif_view self) }
        ensures arity { result.arity ≡ Plain.arity_of (bif_view self) }
        ensures group { group_view result.group ≡ Plain.group_of (bif_view self) }
    {
        match self {
            Bif::Add => make_row("+", 2, Group::Collecting),
            Bif::Subtract => make_row("-", 2, Group::Collecting),
            Bif::Multiply => make_row("*", 2, Group::Collecting),
            Bif::Plus => make_row("+", 1, Group::Collecting),
            Bif::Negate => make_row("-", 1, Group::Collecting),
            Bif::Div => make_row("div", 2, Group::Collecting),
            Bif::Rem => make_row("rem", 2, Group::Collecting),
            Bif::Band => make_row("band", 2, Group::Collecting),
            Bif::Bor => make_row("bor", 2, Group::Collecting),
            Bif::Bxor => make_row("bxor", 2, Group::Collecting),
            Bif::Bnot => make_row("bnot", 1, Group::Collecting),
            Bif::Bsl => make_row("bsl", 2, Group::Collecting),
            Bif::Bsr => make_row("bsr", 2, Group::Collecting),
            Bif::Abs => make_row("abs", 1, Group::Collecting),
            Bif::Round => make_row("round", 1, Group::Collecting),
            Bif::Trunc => make_row("trunc", 1, Group::Collecting),
            Bif::Ceil => make_row("ceil", 1, Group::Collecting),
            Bif::Floor => make_row("floor", 1, Group::Collecting),
            Bif::Equals => make_row("==", 2, Group::Plain),
            Bif::Exactly => make_row("=:=", 2, Group::Plain),
            Bif::Differs => make_row("/=", 2, Group::Plain),
            Bif::ExactlyNot => make_row("=/=", 2, Group::Plain),
            Bif::Below => make_row("<", 2, Group::Plain),
            Bif::AtMost => make_row("=<", 2, Group::Plain),
            Bif::Above => make_row(">", 2, Group::Plain),
            Bif::AtLeast => make_row(">=", 2, Group::Plain),
            Bif::And => make_row("and", 2, Group::Plain),
            Bif::Or => make_row("or", 2, Group::Plain),
            Bif::Xor => make_row("xor", 2, Group::Plain),
            Bif::Not => make_row("not", 1, Group::Plain),
            Bif::IsAtom => make_row("is_atom", 1, Group::Plain),
            Bif::IsBinary => make_row("is_binary", 1, Group::Plain),
            Bif::IsBitstring => make_row("is_bitstring", 1, Group::Plain),
            Bif::IsBoolean => make_row("is_boolean", 1, Group::Plain),
            Bif::IsFloat => make_row("is_float", 1, Group::Plain),
            Bif::IsFunction => make_row("is_function", 1, Group::Plain),
            Bif::IsInteger => make_row("is_integer", 1, Group::Plain),
            Bif::IsList => make_row("is_list", 1, Group::Plain),
            Bif::IsMap => make_row("is_map", 1, Group::Plain),
            Bif::IsNumber => make_row("is_number", 1, Group::Plain),
            Bif::IsPid => make_row("is_pid", 1, Group::Plain),
            Bif::IsPort => make_row("is_port", 1, Group::Plain),
            Bif::IsReference => make_row("is_reference", 1, Group::Plain),
            Bif::IsTuple => make_row("is_tuple", 1, Group::Plain),
            Bif::IsFunction2 => make_row("is_function", 2, Group::Plain),
            Bif::IsRecord2 => make_row("is_record", 2, Group::Plain),
            Bif::IsRecord3 => make_row("is_record", 3, Group::Plain),
            Bif::Element => make_row("element", 2, Group::Plain),
            Bif::TupleSize => make_row("tuple_size", 1, Group::Plain),
            Bif::Size => make_row("size", 1, Group::Collecting),
            Bif::ByteSize => make_row("byte_size", 1, Group::Collecting),
            Bif::BitSize => make_row("bit_size", 1, Group::Collecting),
            Bif::Length => make_row("length", 1, Group::Collecting),
            Bif::Hd => make_row("hd", 1, Group::Plain),
            Bif::Tl => make_row("tl", 1, Group::Plain),
            Bif::MapSize => make_row("map_size", 1, Group::Collecting),
            Bif::IsMapKey => make_row("is_map_key", 2, Group::Plain),
            Bif::MapGet => make_row("map_get", 2, Group::Plain),
            Bif::OwnPid => make_row("self", 0, Group::Plain),
            Bif::Error1 => make_row("error", 1, Group::Raising),
            Bif::Error2 => make_row("error", 2, Group::Raising),
            Bif::Exit1 => make_row("exit", 1, Group::Raising),
            Bif::Throw1 => make_row("throw", 1, Group::Raising),
        }
    }

    fn is_named(self, key: &FunKey) -> bool
        ensures { result ≡ Plain.is_row (Plain.row_of_bif (bif_view self)) key.now.name key.now.arity }
    {
        self.arity() == key.arity && is_text(&key.name, self.name())
    }
}

fn make_row(name: &'static str, arity: u32, group: Group) -> Row
    ensures name { result.name.now ≡ name.now }
    ensures arity { result.arity ≡ arity }
    ensures group { result.group ≡ group }
{
    Row { name, arity, group }
}

fn find(bifs: &[Bif], key: &FunKey) -> Option<Bif>
    ensures { option_map bif_view result ≡ Plain.look_up (map bif_view bifs.now) key.now.name key.now.arity }
{
    for bif in bifs {
        if bif.is_named(key) {
            return Some(*bif);
        }
    }
    None
}

/// Whether the name has the characters of the text.
fn is_text(name: &Name, text: &str) -> bool
    ensures { IsTrue result ↔ (name.now ≡ chars text.now) }
{
    name.as_str() == text
}
