ghost use Rattle.first_fault.specs.FirstFault.{FirstIsFound, FirstIsUnique};

/// Faults have at most one first.
pub fn first_is_unique()
    ensures { FirstIsUnique }
{}

/// Keeping the earlier one of two finds the first of all, and none where there is none.
pub fn first_is_found()
    ensures { FirstIsFound }
{}
