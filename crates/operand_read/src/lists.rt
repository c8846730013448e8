// Operands that are lists: `{list,[..]}` and `[..]`.
ghost use Rattle.std.specs.Prelude.{◌≡◌, map};
ghost use Rattle.erl_term.specs.Comparing.{AllNormal};
ghost use Rattle.erl_term.specs.View.{view};
ghost use Rattle.erl_term.specs.WellFormed.{IsNormal};
ghost use Rattle.term_read.specs.Reading.{Gives};
ghost use Rattle.beam_table.specs.View.{reg_view, source_view, flags_view, put_view, get_view, choice_view, size_choice_view, segment_view};
ghost use Rattle.beam_table.specs.declared.opcode.Kind.TheVariants as K;
ghost use Rattle.insn_terms.specs.Reading as Plain;
ghost use Rattle.std.specs.Prelude.{IfOk};

use crate::flags::FieldFlags;
use crate::names::Atom;
use crate::numbers::{Amount, OwnLabel, YSlot};
use crate::operand::Operand;
use crate::rows::{Item, Pair, four, in_pairs, one, singles, three, two};
use crate::segments::segments_in;
use crate::terms::{behind, items_of};
use beam_table::{
    BuiltSegments, Flags, GetPair, GetPairs, PutPair, PutPairs, Reg, SizeChoice, SizeChoices,
    Slots, Source, Sources, ValueChoice, ValueChoices,
};
use erl_base::Name;
use erl_term::Term;
use std::alloc::Global;
use term_read::Unread;

/// `[S,..]`.
#[derive(Drop)]
pub struct Arguments(pub Sources);

/// `[S]`.
#[derive(Drop)]
pub struct One(pub Source);

/// `[S,S]`.
#[derive(Drop)]
pub struct Two(pub Source, pub Source);

/// `[S,N]`.
#[derive(Drop)]
pub struct WithSize(pub Source, pub u32);

/// `[S,N,{atom,A}]`.
#[derive(Drop)]
pub struct Tagged(pub Source, pub u32, pub Name);

/// `[C,S,U,{field_flags,[..]}]`: context, size, unit and flags.
#[derive(Drop)]
pub struct Field(pub Reg, pub Source, pub u32, pub Flags);

/// `[C,N]`.
#[derive(Drop)]
pub struct Counted(pub Reg, pub u32);

impl Item for u32 {
    ghost kind = { K.YSlot };

    ghost plain = { λ n. n };

    fn read_item(alloc: Global, term: &Term) -> Result<u32, Unread> {
        let YSlot(slot) = YSlot::read(alloc, term)?;
        Ok(slot)
    }
}

impl Item for Source {
    ghost kind = { K.Source };

    ghost plain = { source_view };

    fn read_item(alloc: Global, term: &Term) -> Result<Source, Unread> {
        Source::read(alloc, term)
    }
}

impl Pair for PutPair {
    ghost first = { K.Source };

    ghost second = { K.Source };

    ghost plain = { put_view };

    fn read_pair(alloc: Global, one: &Term, other: &Term) -> Result<PutPair, Unread> {
        let key = Source::read(alloc, one)?;
        let value = Source::read(alloc, other)?;
        Ok(PutPair { key, value })
    }
}

impl Pair for GetPair {
    ghost first = { K.Source };

    ghost second = { K.Register };

    ghost plain = { get_view };

    fn read_pair(alloc: Global, one: &Term, other: &Term) -> Result<GetPair, Unread> {
        let key = Source::read(alloc, one)?;
        let to = Reg::read(alloc, other)?;
        Ok(GetPair { key, to })
    }
}

impl Pair for ValueChoice {
    ghost first = { K.Source };

    ghost second = { K.OwnLabel };

    ghost plain = { choice_view };

    fn read_pair(alloc: Global, one: &Term, other: &Term) -> Result<ValueChoice, Unread> {
        let value = Source::read(alloc, one)?;
        let OwnLabel(label) = OwnLabel::read(alloc, other)?;
        Ok(ValueChoice { value, label })
    }
}

impl Pair for SizeChoice {
    ghost first = { K.Amount };

    ghost second = { K.OwnLabel };

    ghost plain = { size_choice_view };

    fn read_pair(alloc: Global, one: &Term, other: &Term) -> Result<SizeChoice, Unread> {
        let Amount(size) = Amount::read(alloc, one)?;
        let OwnLabel(label) = OwnLabel::read(alloc, other)?;
        Ok(SizeChoice { size, label })
    }
}

impl Operand for Slots {
    ghost kind = { K.Slots };

    ghost plain = { λ ns. ns };

    fn read(alloc: Global, term: &Term) -> Result<Slots, Unread> {
        let items = list_items(term)?;
        singles(alloc, items)
    }
}

impl Operand for Sources {
    ghost kind = { K.Sources };

    ghost plain = { map source_view };

    fn read(alloc: Global, term: &Term) -> Result<Sources, Unread> {
        let items = list_items(term)?;
        singles(alloc, items)
    }
}

impl Operand for PutPairs {
    ghost kind = { K.PutPairs };

    ghost plain = { map put_view };

    fn read(alloc: Global, term: &Term) -> Result<PutPairs, Unread> {
        let items = list_items(term)?;
        in_pairs(alloc, items)
    }
}

impl Operand for GetPairs {
    ghost kind = { K.GetPairs };

    ghost plain = { map get_view };

    fn read(alloc: Global, term: &Term) -> Result<GetPairs, Unread> {
        let items = list_items(term)?;
        in_pairs(alloc, items)
    }
}

impl Operand for ValueChoices {
    ghost kind = { K.ValueChoices };

    ghost plain = { map choice_view };

    fn read(alloc: Global, term: &Term) -> Result<ValueChoices, Unread> {
        let items = list_items(term)?;
        in_pairs(alloc, items)
    }
}

impl Operand for SizeChoices {
    ghost kind = { K.SizeChoices };

    ghost plain = { map size_choice_view };

    fn read(alloc: Global, term: &Term) -> Result<SizeChoices, Unread> {
        let items = list_items(term)?;
        in_pairs(alloc, items)
    }
}

impl Operand for BuiltSegments {
    ghost kind = { K.Segments };

    ghost plain = { map segment_view };

    fn read(alloc: Global, term: &Term) -> Result<BuiltSegments, Unread> {
        let items = list_items(term)?;
        segments_in(alloc, items)
    }
}

impl Operand for Arguments {
    ghost kind = { K.Arguments };

    ghost plain = { λ v. map source_view v.0 };

    fn read(alloc: Global, term: &Term) -> Result<Arguments, Unread> {
        let items = items_of(term)?;
        let arguments = singles(alloc, items)?;
        Ok(Arguments(arguments))
    }
}

impl Operand for One {
    ghost kind = { K.One };

    ghost plain = { λ v. source_view v.0 };

    fn read(alloc: Global, term: &Term) -> Result<One, Unread> {
        let items = items_of(term)?;
        let source = one(alloc, items)?;
        Ok(One(source))
    }
}

impl Operand for Two {
    ghost kind = { K.Two };

    ghost plain = { λ v. (source_view v.0, source_view v.1) };

    fn read(alloc: Global, term: &Term) -> Result<Two, Unread> {
        let items = items_of(term)?;
        let (left, right) = two(alloc, items)?;
        Ok(Two(left, right))
    }
}

impl Operand for WithSize {
    ghost kind = { K.Sized };

    ghost plain = { λ v. (source_view v.0, v.1) };

    fn read(alloc: Global, term: &Term) -> Result<WithSize, Unread> {
        let items = items_of(term)?;
        let (source, Amount(size)) = two(alloc, items)?;
        Ok(WithSize(source, size))
    }
}

impl Operand for Tagged {
    ghost kind = { K.Tagged };

    ghost plain = { λ v. (source_view v.0, (v.1, v.2)) };

    fn read(alloc: Global, term: &Term) -> Result<Tagged, Unread> {
        let items = items_of(term)?;
        let (source, (Amount(size), Atom(tag))) = three(alloc, items)?;
        Ok(Tagged(source, size, tag))
    }
}

impl Operand for Field {
    ghost kind = { K.Field };

    ghost plain = { λ v. (reg_view v.0, (source_view v.1, (v.2, flags_view v.3))) };

    fn read(alloc: Global, term: &Term) -> Result<Field, Unread> {
        let items = items_of(term)?;
        let (context, (size, (Amount(unit), FieldFlags(flags)))) = four(alloc, items)?;
        Ok(Field(context, size, unit, flags))
    }
}

impl Operand for Counted {
    ghost kind = { K.Counted };

    ghost plain = { λ v. (reg_view v.0, v.1) };

    fn read(alloc: Global, term: &Term) -> Result<Counted, Unread> {
        let items = items_of(term)?;
        let (context, Amount(bits)) = two(alloc, items)?;
        Ok(Counted(context, bits))
    }
}

// The items of `{list,[..]}`.
fn list_items(term: &Term) -> Result<&[Term], Unread>
    requires { IsNormal term.now }
    ensures value { Gives (λ ts. map view ts.now) result (Plain.list_items (view term.now)) }
    ensures normal { IfOk result (λ ts. AllNormal ts.now) }
{
    let list = behind("list", term)?;
    items_of(list)
}
