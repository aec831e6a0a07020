// What holds of all trees. These functions do nothing; their clauses are the laws.
ghost use Rattle.htl_names.specs.Conditions.{SourceTreesMeetBounds};
ghost use Rattle.htl_names.specs.NameRules.{OneNameFault};

/// A tree that is bounded, as each tree of a source is, meets the conditions under which its names are resolved.
#[tactic(auto, using(crate::proofs::TreeBounds::bounded_tree))]
pub fn source_trees_meet_bounds()
    ensures { SourceTreesMeetBounds }
{}

/// The programs of a source have one first fault of names at most.
#[tactic(auto, using(crate::proofs::OneFault::one_name_fault))]
pub fn one_name_fault()
    ensures { OneNameFault }
{}
