// A row is the text of a term, and what is shown is each form of a module, other than an instruction, that it stands
// for, with what stands in it.
ghost use Rattle.erl_term.specs.WellFormed.{IsNormal};

use case_rows::bytes_of;
use erl_base::NoMemory;
use erl_term::Term;
use insn_read::{
    attributes_form_of, exports_form_of, func_info_form_of, function_form_of, is_dropped,
    labels_form_of, module_form_of,
};
use std::test::Fail;
use term_read::{Unread, read_term};

pub fn show(rt: &HostRuntime, row: &str) -> Result<(), Fail> {
    let bytes = bytes_of(rt.alloc(), row)?;
    let term = read_term(rt.alloc(), bytes.as_slice())?;
    show_module(rt, &term)?;
    show_exports(rt, &term)?;
    show_attributes(rt, &term)?;
    show_labels(rt, &term)?;
    show_function(rt, &term)?;
    show_func_info(rt, &term)?;
    if is_dropped(&term) {
        println!(rt; "    dropped")?;
    }
    Ok(())
}

fn show_module(rt: &HostRuntime, term: &Term) -> Result<(), Fail>
    requires { IsNormal term.now }
{
    match module_form_of(rt.alloc(), term) {
        Ok(name) => Ok(println!(rt; "    module {:?}", name.as_str())?),
        Err(unread) => unread_form(unread),
    }
}

fn show_exports(rt: &HostRuntime, term: &Term) -> Result<(), Fail>
    requires { IsNormal term.now }
{
    match exports_form_of(rt.alloc(), term) {
        Ok(keys) => Ok(println!(rt; "    exports {:?}", keys.as_slice())?),
        Err(unread) => unread_form(unread),
    }
}

fn show_attributes(rt: &HostRuntime, term: &Term) -> Result<(), Fail>
    requires { IsNormal term.now }
{
    match attributes_form_of(rt.alloc(), term) {
        Ok(attributes) => Ok(println!(rt; "    attributes {:?}", attributes.as_slice())?),
        Err(unread) => unread_form(unread),
    }
}

fn show_labels(rt: &HostRuntime, term: &Term) -> Result<(), Fail>
    requires { IsNormal term.now }
{
    match labels_form_of(term) {
        Ok(limit) => Ok(println!(rt; "    labels {limit}")?),
        Err(unread) => unread_form(unread),
    }
}

fn show_function(rt: &HostRuntime, term: &Term) -> Result<(), Fail>
    requires { IsNormal term.now }
{
    match function_form_of(rt.alloc(), term) {
        Ok((key, entry)) => Ok(println!(rt; "    function {key:?} {entry:?}")?),
        Err(unread) => unread_form(unread),
    }
}

fn show_func_info(rt: &HostRuntime, term: &Term) -> Result<(), Fail>
    requires { IsNormal term.now }
{
    match func_info_form_of(rt.alloc(), term) {
        Ok((module, key)) => Ok(println!(rt; "    func_info {:?} {key:?}", module.as_str())?),
        Err(unread) => unread_form(unread),
    }
}

fn unread_form(unread: Unread) -> Result<(), Fail> {
    match unread {
        Unread::Syntax => Ok(()),
        Unread::NoMemory => Err(Fail::from(NoMemory)),
    }
}
