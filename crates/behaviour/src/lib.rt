//! What it is that an assembly module behaves as a Core module, and that functions one by one give it.
//!
//! The module with `'f'/1 = fun (X) -> X` behaves as the assembly whose `f/1` returns at once, since its argument is
//! in `{x,0}` already: whatever term is called, whatever the world replies and with every bound on entries, the same
//! happens and the run ends the same.
//!
//! Sound both ways: each meaning with a bound is reached by some number of steps, and no step goes beyond the
//! meanings. `passes_give_the_module` asks this of single functions alone, in the last form that they come to: code
//! that realizes each of them, and a row of passes that leads there from the Core module.
//!
//! The public functions have no code: the contract of each is a law. Of the compiler's passes only that for plain
//! modules stands here, as the definition `plain_asm`. How many steps a run takes is not compared.
#![tactic(auto)]

mod laws;

pub use laws::{
    functions_give_the_costs, functions_give_the_module, passes_give_the_costs,
    passes_give_the_module, plain_assembly_is_valid, plain_modules_behave_the_same,
    same_results_show,
};
