// Forms that are no instruction.
ghost use Rattle.std.specs.Prelude.{◌≡◌, map, IfOk};
ghost use Rattle.erl_base.specs.Names.{keys_distinct};
ghost use Rattle.erl_term.specs.Comparing.{AllNormal};
ghost use Rattle.erl_term.specs.View.{view, attribute_view};
ghost use Rattle.erl_term.specs.WellFormed.{IsNormal};
ghost use Rattle.term_read.specs.Reading.{Gives};
ghost use Rattle.insn_terms.specs.Reading.{singles, pair_of};
ghost use Rattle.asm_forms.specs.FormParts as Plain;

use beam_table::FunKeys;
use erl_base::{FunKey, LabelId, List, Name, NoMemory};
use erl_term::{Attribute, Attributes, Term};
use key_set::KeySet;
use operand_read::{
    Arity, Atom, Operand, atom_of, bare_label, behind, elements_of, is_word, items_of, number_of,
    pair_of, three,
};
use std::alloc::Global;
use term_read::Unread;

/// `{module,M}`.
pub fn module_form_of(alloc: Global, term: &Term) -> Result<Name, Unread>
    requires { IsNormal term.now }
    ensures { Gives (λ a. a) result (Plain.module_form_of (view term.now)) }
{
    let part = behind("module", term)?;
    let name = atom_of(part)?;
    Ok(name.copy(alloc)?)
}

/// `{exports,[{F,A},..]}`, each function once.
pub fn exports_form_of(alloc: Global, term: &Term) -> Result<FunKeys, Unread>
    requires { IsNormal term.now }
    ensures { Gives (λ fs. fs) result (Plain.exports_form_of (view term.now)) }
{
    let part = behind("exports", term)?;
    let items = items_of(part)?;
    let keys = keys_in(alloc, items)?;
    if !are_distinct(alloc, keys.as_slice())? {
        return Err(Unread::Syntax);
    }
    Ok(keys)
}

/// `{attributes,[{Key,Value},..]}`.
pub fn attributes_form_of(alloc: Global, term: &Term) -> Result<Attributes, Unread>
    requires { IsNormal term.now }
    ensures { Gives (map attribute_view) result (Plain.attributes_form_of (view term.now)) }
{
    let part = behind("attributes", term)?;
    let items = items_of(part)?;
    attributes_in(alloc, items)
}

/// `{labels,N}`.
pub fn labels_form_of(term: &Term) -> Result<u128, Unread>
    requires { IsNormal term.now }
    ensures { Gives (λ n. n) result (Plain.labels_form_of (view term.now)) }
{
    let part = behind("labels", term)?;
    number_of(part)
}

/// `{function,F,A,Entry}`: the function, and its entry label.
pub fn function_form_of(alloc: Global, term: &Term) -> Result<(FunKey, LabelId), Unread>
    requires { IsNormal term.now }
    ensures { Gives (λ p. (p.0, p.1.0)) result (Plain.function_form_of (view term.now)) }
{
    let elements = elements_of(term)?;
    function_in(alloc, elements)
}

/// `{func_info,{atom,M},{atom,F},A}`: the module, and the function.
pub fn func_info_form_of(alloc: Global, term: &Term) -> Result<(Name, FunKey), Unread>
    requires { IsNormal term.now }
    ensures { Gives (λ p. (p.0, p.1)) result (Plain.func_info_form_of (view term.now)) }
{
    let elements = elements_of(term)?;
    func_info_in(alloc, elements)
}

/// Whether a form says nothing of the module: `{line,_}` and `{'%',_}`.
pub fn is_dropped(term: &Term) -> bool
    requires { IsNormal term.now }
    ensures { result ≡ Plain.is_dropped (view term.now) }
{
    let Ok((tag, _)) = pair_of(term) else {
        return false;
    };
    is_word(tag, "line") || is_word(tag, "%")
}

fn function_in(alloc: Global, terms: &[Term]) -> Result<(FunKey, LabelId), Unread>
    requires { AllNormal terms.now }
    ensures { Gives (λ p. (p.0, p.1.0)) result (Plain.function_in (map view terms.now)) }
{
    let [word, name, arity, entry] = terms else {
        return Err(Unread::Syntax);
    };
    let word = atom_of(word)?;
    let name = atom_of(name)?;
    let Arity(arity) = Arity::read(alloc, arity)?;
    let entry = bare_label(entry)?;
    if !is_word(word, "function") {
        return Err(Unread::Syntax);
    }
    let name = name.copy(alloc)?;
    Ok((FunKey { name, arity }, entry))
}

fn func_info_in(alloc: Global, terms: &[Term]) -> Result<(Name, FunKey), Unread>
    requires { AllNormal terms.now }
    ensures { Gives (λ p. (p.0, p.1)) result (Plain.func_info_in (map view terms.now)) }
{
    let [word, others @ ..] = terms else {
        return Err(Unread::Syntax);
    };
    let word = atom_of(word)?;
    let (Atom(module), (Atom(name), Arity(arity))) = three(alloc, others)?;
    if !is_word(word, "func_info") {
        return Err(Unread::Syntax);
    }
    Ok((module, FunKey { name, arity }))
}

fn key_term_of(alloc: Global, term: &Term) -> Result<FunKey, Unread>
    requires { IsNormal term.now }
    ensures { Gives (λ f. f) result (Plain.key_term_of (view term.now)) }
{
    let elements = elements_of(term)?;
    key_in(alloc, elements)
}

fn key_in(alloc: Global, terms: &[Term]) -> Result<FunKey, Unread>
    requires { AllNormal terms.now }
    ensures { Gives (λ f. f) result (Plain.key_in (map view terms.now)) }
{
    let [name, arity] = terms else {
        return Err(Unread::Syntax);
    };
    let name = atom_of(name)?;
    let Arity(arity) = Arity::read(alloc, arity)?;
    let name = name.copy(alloc)?;
    Ok(FunKey { name, arity })
}

fn keys_in(alloc: Global, terms: &[Term]) -> Result<FunKeys, Unread>
    requires { AllNormal terms.now }
    ensures { Gives (λ fs. fs) result (singles Plain.key_term_of (map view terms.now)) }
{
    let mut keys = List::new(alloc);
    for term in terms {
        let key = key_term_of(alloc, term)?;
        keys.push(key)?;
    }
    Ok(keys)
}

fn attributes_in(alloc: Global, terms: &[Term]) -> Result<Attributes, Unread>
    requires { AllNormal terms.now }
    ensures { Gives (map attribute_view) result (singles pair_of (map view terms.now)) }
{
    let mut attributes = List::new(alloc);
    for term in terms {
        let attribute = attribute_of(alloc, term)?;
        attributes.push(attribute)?;
    }
    Ok(attributes)
}

fn attribute_of(alloc: Global, term: &Term) -> Result<Attribute, Unread>
    requires { IsNormal term.now }
    ensures { Gives attribute_view result (pair_of (view term.now)) }
{
    let (key, value) = pair_of(term)?;
    let key = key.copy(alloc)?;
    let value = value.copy(alloc)?;
    Ok(Attribute { key, value })
}

// Whether no function stands twice.
fn are_distinct(alloc: Global, keys: &[FunKey]) -> Result<bool, NoMemory>
    ensures { IfOk result (λ distinct. distinct ≡ keys_distinct keys.now) }
{
    let mut seen = KeySet::new(alloc);
    for key in keys {
        if !seen.insert(alloc, key)? {
            return Ok(false);
        }
    }
    Ok(true)
}
