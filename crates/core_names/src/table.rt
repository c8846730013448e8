// The table of names.
ghost use Rattle.std.specs.Prelude.{◌≡◌, ◌≤◌, ◌-◌, List, [], ◌∷◌, ◌++◌, length, drop, Some, OnOk, OnErr, bytes_eq};
ghost use Rattle.std.specs.Option.{option_map};
ghost use Rattle.erl_base.specs.Names.{same_name, same_key};
ghost use Rattle.core_form.specs.Scope.{variable, function, binding, function_of};
ghost use Rattle.indexmap.specs.IndexMap.{Updates, ContainsKey, IsUnchanged};
ghost use Rattle.core_names.specs.declared.table.Binding.{Binding};
ghost use Rattle.core_names.specs.Table.{function_known};

use erl_base::{FunKey, List, Name, NoMemory};
use indexmap::IndexMap;
use std::alloc::Global;
use std::marker::Model;

/// What a function's name means: its site, and how many bindings stand outside of its own.
#[derive(Clone, Copy, Debug, PartialEq, Eq)]
pub struct Known {
    pub site: u64,
    pub position: u64,
}

/// A variable with its number, or a function with its site, and what the name meant before.
#[derive(Drop)]
enum Binding {
    Variable(Name, u64, Option<u64>),
    Function(FunKey, u64, Option<Known>),
}

/// What names mean. Contracts see it as a scope, whose functions capture nothing. It holds at most 2^32 - 1 bindings.
#[derive(Drop)]
pub struct Names {
    variables: IndexMap<Name, u64>,
    functions: IndexMap<FunKey, Known>,
    bindings: List<Binding>,
    alloc: Global,
}

impl Model for Names {
    ghost use Rattle.std.specs.Prelude.{[]};
    ghost use Rattle.erl_base.specs.Names.{same_name, same_key};
    ghost use Rattle.core_form.specs.Scope.{Scope};
    ghost use Rattle.indexmap.specs.IndexMap.{get};
    ghost use Rattle.core_names.specs.Table.{bound_inside, IsTable};

    ghost Value = { Scope };

    ghost view = { λ t. bound_inside [] t.bindings };

    ghost invariant = { λ t. IsTable (get same_name t.variables) (get same_key t.functions) t.bindings };
}

impl Names {
    /// A table without bindings. It takes no memory.
    pub fn new(alloc: Global) -> Names
        ensures { result ≡ [] }
    {
        Names {
            variables: IndexMap::new(alloc),
            functions: IndexMap::new(alloc),
            bindings: List::new(alloc),
            alloc,
        }
    }

    /// How many bindings there are, at most 2^32 - 1.
    pub fn len(&self) -> u64
        ensures value { result ≡ length self.now }
        ensures bound { result ≤ 4294967295 }
    {
        self.bindings.len() as u64
    }

    /// The number of a variable's innermost binding.
    pub fn binding(&self, name: &Name) -> Option<u64>
        ensures { result ≡ binding self.now name.now }
    {
        self.variables.get(name).copied()
    }

    /// What a function's name means.
    pub fn function(&self, key: &FunKey) -> Option<Known>
        ensures known { result ≡ function_known self.now key.now }
        ensures site { option_map (λ found. found.site) result
            ≡ option_map (λ found. found.0) (function_of self.now key.now) }
    {
        self.functions.get(key).copied()
    }

    /// Binds a variable, whose number is the number of bindings before.
    pub fn bind(&mut self, name: &Name) -> Result<(), NoMemory>
        ensures ok { OnOk result (self.new ≡ variable name.now (length self.old) ∷ self.old) }
        ensures err { OnErr result (self.new ≡ self.old) }
    {
        let key = name.copy(self.alloc)?;
        let copy = name.copy(self.alloc)?;
        let before = self.binding(name);
        let number = self.len();
        self.bindings.push(Binding::Variable(copy, number, before))?;
        match put_variable(&mut self.variables, key, number) {
            Ok(()) => Ok(()),
            Err(refused) => {
                take_back(&mut self.bindings);
                Err(refused)
            }
        }
    }

    /// Binds a function to a site.
    pub fn bind_function(&mut self, key: &FunKey, site: u64) -> Result<(), NoMemory>
        ensures ok { OnOk result (self.new ≡ function key.now site [] ∷ self.old) }
        ensures err { OnErr result (self.new ≡ self.old) }
    {
        let name = key.copy(self.alloc)?;
        let copy = key.copy(self.alloc)?;
        let before = self.function(key);
        let position = self.len();
        self.bindings.push(Binding::Function(copy, site, before))?;
        match put_function(&mut self.functions, name, Known { site, position }) {
            Ok(()) => Ok(()),
            Err(refused) => {
                take_back(&mut self.bindings);
                Err(refused)
            }
        }
    }

    /// Leaves the innermost bindings, so that this many stay.
    pub fn leave(&mut self, outer: u64)
        requires { outer ≤ length self.old }
        ensures { self.new ≡ drop (length self.old - outer) self.old }
    {
        while self.len() > outer {
            self.leave_one();
        }
    }

    fn leave_one(&mut self)
        ensures { self.new ≡ drop 1 self.old }
    {
        match self.bindings.pop() {
            None => {}
            Some(Binding::Variable(name, _, before)) => {
                variable_before(&mut self.variables, name, before);
            }
            Some(Binding::Function(key, _, before)) => {
                function_before(&mut self.functions, key, before);
            }
        }
    }
}

// Takes off the last binding, which was just added.
fn take_back(bindings: &mut List<Binding>)
    ensures { (others : List Binding) (last : Binding) → bindings.old ≡ others ++ last ∷ [] → bindings.new ≡ others }
{
    bindings.pop();
}

fn put_variable(
    variables: &mut IndexMap<Name, u64>,
    name: Name,
    number: u64,
) -> Result<(), NoMemory>
    ensures ok { OnOk result (Updates bytes_eq variables.old variables.new name (Some number)) }
    ensures err { OnErr result (IsUnchanged variables.old variables.new) }
{
    variables.insert(name, number)?;
    Ok(())
}

fn put_function(
    functions: &mut IndexMap<FunKey, Known>,
    key: FunKey,
    known: Known,
) -> Result<(), NoMemory>
    ensures ok { OnOk result (Updates same_key functions.old functions.new key (Some known)) }
    ensures err { OnErr result (IsUnchanged functions.old functions.new) }
{
    functions.insert(key, known)?;
    Ok(())
}

// Gives a variable that is bound what it meant before.
fn variable_before(variables: &mut IndexMap<Name, u64>, name: Name, before: Option<u64>)
    requires { ContainsKey bytes_eq variables.old name }
    ensures { Updates bytes_eq variables.old variables.new name before }
{
    match before {
        None => {
            variables.swap_remove(&name);
        }
        Some(number) => {
            let _had_room = variables.insert(name, number);
        }
    }
}

// The same of a function.
fn function_before(functions: &mut IndexMap<FunKey, Known>, key: FunKey, before: Option<Known>)
    requires { ContainsKey same_key functions.old key }
    ensures { Updates same_key functions.old functions.new key before }
{
    match before {
        None => {
            functions.swap_remove(&key);
        }
        Some(known) => {
            let _had_room = functions.insert(key, known);
        }
    }
}
