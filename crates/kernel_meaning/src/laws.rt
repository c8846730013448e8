ghost use Rattle.kernel_meaning.specs.Agreement.{AgreesAtNodes, SameMeaningAgrees};
ghost use Rattle.kernel_meaning.specs.Forms.{CoreRunsMean, MeaningsAreProper};

use pass_contract::results_make_agreement;

/// Two functions in kernel form that mean the same agree, so a pass that makes no other sub-binaries may show an
/// equation.
pub fn same_meaning_agrees()
    ensures { SameMeaningAgrees }
{
    results_make_agreement();
}

/// A function agrees with itself at each of its nodes, wherever these stand.
#[tactic(auto, using(crate::proofs::Steady::agrees_at_nodes))]
pub fn functions_agree_at_nodes()
    ensures { AgreesAtNodes }
{}

/// The functions of a Core module, as runs, mean what the module means.
#[tactic(auto, using(crate::proofs::Proper::core_runs_mean))]
pub fn core_runs_mean_the_module()
    ensures { CoreRunsMean }
{}

/// Runs of Core modules and of kernel functions have one result, which is lawful where what they enter is.
#[tactic(auto, using(crate::proofs::Proper::forms_are_proper))]
pub fn core_and_kernel_runs_are_proper()
    ensures { MeaningsAreProper }
{}
