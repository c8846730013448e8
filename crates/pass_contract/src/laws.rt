// How agreement and refinement compose.
ghost use Rattle.pass_contract.specs.PassContract.{FunctionsMakeModules, RefinedMeaning, RowsMeanSame, ModulesCompose, AtOnceAgrees, FittingSuffices};

/// Where each function of one module agrees with the function of the other at the same site, the modules agree.
#[tactic(auto, using(crate::proofs::Modules::functions_make))]
pub fn functions_make_modules()
    ensures { FunctionsMakeModules }
{}

/// Where each function is refined by the one at the same site, a module's meaning stays its meaning.
#[tactic(auto, using(crate::proofs::Modules::refined_meaning))]
pub fn refinement_keeps_meanings()
    ensures { RefinedMeaning }
{}

/// Any row of agreements and refinements gives the last module a meaning where the first one has one, with the same
/// results.
#[tactic(auto, using(crate::proofs::Modules::rows_mean))]
pub fn rows_mean_the_same()
    ensures { RowsMeanSame }
{}

/// Modules that agree in a row agree, so passes compose.
#[tactic(auto, using(crate::proofs::Modules::compose))]
pub fn modules_compose()
    ensures { ModulesCompose }
{}

/// Functions that are over at once agree where their results are the same.
#[tactic(auto, using(crate::proofs::Modules::at_once_agrees))]
pub fn results_make_agreement()
    ensures { AtOnceAgrees }
{}

/// Functions that refuse another number of terms than they have parameters need to agree, to be refined and to be
/// proper with that many alone.
#[tactic(auto, using(crate::proofs::Fitting::fitting_suffices))]
pub fn fitting_terms_suffice()
    ensures { FittingSuffices }
{}
