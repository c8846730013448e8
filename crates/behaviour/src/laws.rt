ghost use Rattle.behaviour.specs.FunctionsGiveModule.{FunctionsGiveModule, FunctionsGiveCosts, PassesGiveModule, PassesGiveCosts, SameResultsShow};
ghost use Rattle.behaviour.specs.PlainModules.{PlainModulesBehave, PlainAssemblyIsValid};

/// An assembly module that realizes functions in some form, whose module shows what the Core module means, behaves as
/// the Core module.
pub fn functions_give_the_module()
    ensures { FunctionsGiveModule }
{}

/// Where the functions' module shows the costs of the Core module too, and no call binds a reference, the calls cost no
/// more.
#[tactic(auto, using(crate::proofs::Modules::functions_give_costs))]
pub fn functions_give_the_costs()
    ensures { FunctionsGiveCosts }
{}

/// A row of passes from the Core module to functions that the assembly realizes is enough.
#[tactic(auto, using(crate::proofs::Modules::passes_give_module))]
pub fn passes_give_the_module()
    ensures { PassesGiveModule }
{}

/// Such a row gives the costs too, where sub-binaries are compared along it.
pub fn passes_give_the_costs()
    ensures { PassesGiveCosts }
{}

/// Results that are the same, whatever is compared, show what a machine needs to follow the older one, and to keep its
/// costs where sub-binaries are.
#[tactic(auto, using(crate::proofs::Whole::same_results_show))]
pub fn same_results_show()
    ensures { SameResultsShow }
{}

/// The assembly of a module whose functions each give an integer, an atom or a parameter behaves as the module.
pub fn plain_modules_behave_the_same()
    ensures { PlainModulesBehave }
{}

/// The assembly of a plain module that is small enough for a text is a valid module.
pub fn plain_assembly_is_valid()
    ensures { PlainAssemblyIsValid }
{}
