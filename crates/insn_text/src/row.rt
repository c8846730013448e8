use beam_table::{
    BuiltSegments, Extern, Flags, GetPairs, PutPairs, Reg, SegmentKind, SizeChoices, Slots, Source,
    Sources, ValueChoices,
};
use bif_table::Bif;
use erl_base::{LabelId, Name};

/// An operand that is no list.
#[derive(Drop)]
pub(crate) enum Single<'a> {
    Source(&'a Source),
    Register(Reg),
    Label(LabelId),
    LabelOrZero(Option<LabelId>),
    LabelOrNoFail(Option<LabelId>),
    Number(u32),
    Function(Bif),
    Atom(&'a Name),
    Kind(SegmentKind),
    Extern(&'a Extern),
    FieldFlags(Flags),
    FlagList(Flags),
}

/// The items of a list.
#[derive(Drop)]
pub(crate) enum Items<'a> {
    Singles(&'a [Single<'a>]),
    Slots(&'a Slots),
    Sources(&'a Sources),
    PutPairs(&'a PutPairs),
    GetPairs(&'a GetPairs),
    ValueChoices(&'a ValueChoices),
    SizeChoices(&'a SizeChoices),
    Segments(&'a BuiltSegments),
}

/// An operand of an instruction: alone, `[..]`, or `{list,[..]}`.
#[derive(Drop)]
pub(crate) enum Operand<'a> {
    One(Single<'a>),
    Bare(Items<'a>),
    Listed(Items<'a>),
}
