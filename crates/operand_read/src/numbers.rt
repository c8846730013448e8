// Numbers within their bounds: labels, slots, and counts of all kinds.
ghost use Rattle.std.specs.Prelude.{◌≡◌, leb, ◌&&◌};
ghost use Rattle.erl_term.specs.View.{view};
ghost use Rattle.erl_term.specs.WellFormed.{IsNormal};
ghost use Rattle.term_read.specs.Reading.{Gives};
ghost use Rattle.beam_table.specs.View.{label_view};
ghost use Rattle.beam_table.specs.declared.opcode.Kind.TheVariants as K;
ghost use Rattle.insn_terms.specs.Reading as Plain;

use crate::operand::Operand;
use crate::registers::register_of;
use crate::terms::{atom_of, behind, is_word, number_of, pair_of};
use beam_table::Reg;
use erl_base::{LabelId, Name, SiteId};
use erl_term::Term;
use std::alloc::Global;
use term_read::Unread;

/// The most X registers that are live.
const MOST_LIVE: u32 = 1023;

/// The most arguments that a function has.
const MOST_ARGUMENTS: u32 = 255;

/// The most bits that a segment's unit has.
const MOST_UNIT: u32 = 256;

/// The greatest count of slots, words and the like.
const MOST_COUNT: u32 = 16777215;

/// The greatest label and the greatest number of a function.
const MOST_LABEL: u32 = 4294967295;

/// A label of the same function.
#[derive(Drop)]
pub struct OwnLabel(pub LabelId);

/// The entry label of any function.
#[derive(Drop)]
pub struct EntryLabel(pub LabelId);

/// A label of the same function, or `{f,0}`.
#[derive(Drop)]
pub struct LabelOrZero(pub Option<LabelId>);

/// A label of the same function, or `no_fail`.
#[derive(Drop)]
pub struct LabelOrNoFail(pub Option<LabelId>);

/// `{f,0}`.
#[derive(Drop)]
pub struct NoLabel;

#[derive(Drop)]
pub struct XSlot(pub u32);

#[derive(Drop)]
pub struct YSlot(pub u32);

#[derive(Drop)]
pub struct Live(pub u32);

#[derive(Drop)]
pub struct Arity(pub u32);

#[derive(Drop)]
pub struct Site(pub SiteId);

/// The unit of a segment that is built.
#[derive(Drop)]
pub struct Unit(pub u32);

/// Slots, words, sizes and other counts.
#[derive(Drop)]
pub struct Amount(pub u32);

/// The number 0.
#[derive(Drop)]
pub struct Zero;

impl Operand for OwnLabel {
    ghost kind = { K.OwnLabel };

    ghost plain = { λ v. v.0.0 };

    fn read(_alloc: Global, term: &Term) -> Result<OwnLabel, Unread> {
        let label = label(term)?;
        Ok(OwnLabel(label))
    }
}

impl Operand for EntryLabel {
    ghost kind = { K.EntryLabel };

    ghost plain = { λ v. v.0.0 };

    fn read(_alloc: Global, term: &Term) -> Result<EntryLabel, Unread> {
        let label = label(term)?;
        Ok(EntryLabel(label))
    }
}

impl Operand for LabelOrZero {
    ghost kind = { K.LabelOrZero };

    ghost plain = { λ v. label_view v.0 };

    fn read(_alloc: Global, term: &Term) -> Result<LabelOrZero, Unread> {
        let label = label_or_zero(term)?;
        Ok(LabelOrZero(label))
    }
}

impl Operand for LabelOrNoFail {
    ghost kind = { K.LabelOrNoFail };

    ghost plain = { λ v. label_view v.0 };

    fn read(_alloc: Global, term: &Term) -> Result<LabelOrNoFail, Unread> {
        let label = label_or_no_fail(term)?;
        Ok(LabelOrNoFail(label))
    }
}

impl Operand for NoLabel {
    ghost kind = { K.NoLabel };

    ghost plain = { λ v. tt };

    fn read(_alloc: Global, term: &Term) -> Result<NoLabel, Unread> {
        let number = label_number(term)?;
        only_zero(number)?;
        Ok(NoLabel)
    }
}

impl Operand for XSlot {
    ghost kind = { K.XSlot };

    ghost plain = { λ v. v.0 };

    fn read(_alloc: Global, term: &Term) -> Result<XSlot, Unread> {
        match register_of(term)? {
            Reg::X(number) => Ok(XSlot(number)),
            Reg::Y(_) => Err(Unread::Syntax),
        }
    }
}

impl Operand for YSlot {
    ghost kind = { K.YSlot };

    ghost plain = { λ v. v.0 };

    fn read(_alloc: Global, term: &Term) -> Result<YSlot, Unread> {
        match register_of(term)? {
            Reg::X(_) => Err(Unread::Syntax),
            Reg::Y(number) => Ok(YSlot(number)),
        }
    }
}

#[tactic(auto, unfolding(beam_table::specs::OperandBounds::operand_ok))]
impl Operand for Live {
    ghost kind = { K.Live };

    ghost plain = { λ v. v.0 };

    fn read(_alloc: Global, term: &Term) -> Result<Live, Unread> {
        let number = number_of(term)?;
        let live = within(number, 0, MOST_LIVE)?;
        Ok(Live(live))
    }
}

#[tactic(auto, unfolding(beam_table::specs::OperandBounds::operand_ok))]
impl Operand for Arity {
    ghost kind = { K.Arity };

    ghost plain = { λ v. v.0 };

    fn read(_alloc: Global, term: &Term) -> Result<Arity, Unread> {
        let number = number_of(term)?;
        let arity = within(number, 0, MOST_ARGUMENTS)?;
        Ok(Arity(arity))
    }
}

#[tactic(auto, unfolding(beam_table::specs::OperandBounds::operand_ok))]
impl Operand for Site {
    ghost kind = { K.Site };

    ghost plain = { λ v. v.0.0 };

    fn read(_alloc: Global, term: &Term) -> Result<Site, Unread> {
        let number = number_of(term)?;
        let site = within(number, 0, MOST_LABEL)?;
        Ok(Site(SiteId(site)))
    }
}

#[tactic(auto, unfolding(beam_table::specs::OperandBounds::operand_ok))]
impl Operand for Unit {
    ghost kind = { K.Unit };

    ghost plain = { λ v. v.0 };

    fn read(_alloc: Global, term: &Term) -> Result<Unit, Unread> {
        let number = number_of(term)?;
        let unit = within(number, 1, MOST_UNIT)?;
        Ok(Unit(unit))
    }
}

#[tactic(auto, unfolding(beam_table::specs::OperandBounds::operand_ok))]
impl Operand for Amount {
    ghost kind = { K.Amount };

    ghost plain = { λ v. v.0 };

    fn read(_alloc: Global, term: &Term) -> Result<Amount, Unread> {
        let number = number_of(term)?;
        let amount = within(number, 0, MOST_COUNT)?;
        Ok(Amount(amount))
    }
}

impl Operand for Zero {
    ghost kind = { K.Zero };

    ghost plain = { λ v. tt };

    fn read(_alloc: Global, term: &Term) -> Result<Zero, Unread> {
        let number = number_of(term)?;
        only_zero(number)?;
        Ok(Zero)
    }
}

/// A label.

pub fn label(term: &Term) -> Result<LabelId, Unread>
    requires { IsNormal term.now }
    ensures { Gives (λ l. l.0) result (Plain.label_value (view term.now)) }
{
    let number = label_number(term)?;
    let label = within(number, 1, MOST_LABEL)?;
    Ok(LabelId(label))
}

/// The number of a label's own form.

pub fn bare_label(term: &Term) -> Result<LabelId, Unread>
    requires { IsNormal term.now }
    ensures { Gives (λ l. l.0) result (Plain.bare_label_value (view term.now)) }
{
    let number = number_of(term)?;
    let label = within(number, 1, MOST_LABEL)?;
    Ok(LabelId(label))
}

fn label_or_zero(term: &Term) -> Result<Option<LabelId>, Unread>
    requires { IsNormal term.now }
    ensures { Gives label_view result (Plain.label_or_zero_value (view term.now)) }
{
    let number = label_number(term)?;
    if number == 0 {
        return Ok(None);
    }
    let label = within(number, 1, MOST_LABEL)?;
    Ok(Some(LabelId(label)))
}

fn label_or_no_fail(term: &Term) -> Result<Option<LabelId>, Unread>
    requires { IsNormal term.now }
    ensures { Gives label_view result (Plain.label_or_no_fail_value (view term.now)) }
{
    let (tag, part) = pair_of(term)?;
    no_fail_or_label(tag, part)
}

fn no_fail_or_label(tag: &Name, part: &Term) -> Result<Option<LabelId>, Unread>
    requires { IsNormal part.now }
    ensures { Gives label_view result (Plain.no_fail_or_label tag.now (view part.now)) }
{
    if is_word(tag, "f") {
        let number = number_of(part)?;
        let label = within(number, 1, MOST_LABEL)?;
        return Ok(Some(LabelId(label)));
    }
    if is_word(tag, "atom") {
        let word = atom_of(part)?;
        if is_word(word, "no_fail") {
            return Ok(None);
        }
        return Err(Unread::Syntax);
    }
    Err(Unread::Syntax)
}

/// `{f,L}`, whatever the number.
fn label_number(term: &Term) -> Result<u128, Unread>
    requires { IsNormal term.now }
    ensures { Gives (λ n. n) result (Plain.label_of (view term.now)) }
{
    let part = behind("f", term)?;
    number_of(part)
}

fn only_zero(number: u128) -> Result<(), Unread>
    ensures { Gives (λ v. tt) result (Plain.zero_of number) }
{
    if number == 0 {
        Ok(())
    } else {
        Err(Unread::Syntax)
    }
}

/// A number that is no less than the least and no more than the most.
fn within(number: u128, least: u32, most: u32) -> Result<u32, Unread>
    ensures { Gives (λ n. n) result (Plain.checked (λ n. leb least n && leb n most) number) }
{
    if u128::from(least) <= number && number <= u128::from(most) {
        Ok(number as u32)
    } else {
        Err(Unread::Syntax)
    }
}
