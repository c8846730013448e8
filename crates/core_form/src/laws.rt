ghost use Rattle.core_form.specs.Nodes.{PartsHaveNoMoreNodes};
ghost use Rattle.core_form.specs.SiteLaws.{DefinitionsComeFirst, SitesAreCounted};

/// Sites are numbered by their places in the list: as many stand in an expression as are counted, and the definitions
/// come first.
#[tactic(auto, using(crate::proofs::Counting::sites_counted))]
pub fn sites_are_counted()
    ensures inner { SitesAreCounted }
    ensures definitions { DefinitionsComeFirst }
{}

/// Whatever stands in an expression has no more nodes than the expression.
#[tactic(auto, using(crate::proofs::NodeCounts::no_more_nodes))]
pub fn parts_have_no_more_nodes()
    ensures { PartsHaveNoMoreNodes }
{}
