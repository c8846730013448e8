ghost use Rattle.core_sites.specs.Things.{CapturesAreExpanded, GroupCapturesAreExpanded};

/// What a fun captures is what its text uses of the scope around it, and in a function's stead what that captures.
#[tactic(auto, using(crate::proofs::Captured::captures_expanded))]
pub fn captures_are_expanded()
    ensures { CapturesAreExpanded }
{}

/// What a group captures is what its text uses of the scope around it, its own names left out.
#[tactic(auto, using(crate::proofs::Captured::group_captures_expanded))]
pub fn group_captures_are_expanded()
    ensures { GroupCapturesAreExpanded }
{}
