//! Laws of how many elements a pattern can take and which, and of what its bindings depend on. Each function here has no code: its contract is a law.
#![tactic(auto)]

ghost use Rattle.laws_matching.specs.Bounds.{FewHaveNothing, LastTakesAll, ManyHaveNothing};
ghost use Rattle.laws_matching.specs.Heads.{HeadsTellAll, OrdinaryElsewhere};
ghost use Rattle.laws_matching.specs.Places.{BoundHaveNothing, OthersHaveNothing};

/// There is no binding of fewer elements than element patterns need.
pub fn too_few_have_no_binding()
    ensures law { FewHaveNothing }
{}

/// There is no binding of more elements than element patterns can take.
pub fn too_many_have_no_binding()
    ensures law { ManyHaveNothing }
{}

/// The last element pattern takes all elements that are left.
pub fn the_last_takes_all()
    ensures law { LastTakesAll }
{}

/// There is no binding of a run with an element that cannot stand in it, as the outermost constructs of the pattern tell.
pub fn an_unfit_element_has_no_binding()
    ensures law { OthersHaveNothing }
{}

/// There is no binding of a run other than the one that the pattern's name has already.
pub fn another_run_has_no_binding()
    ensures law { BoundHaveNothing }
{}

/// The name of a construct in another shape than the construct's is the head of an ordinary pattern.
pub fn another_shape_is_ordinary()
    ensures law { OrdinaryElsewhere }
{}

/// A pattern has the same bindings wherever the same of its heads are `Flat` and `Orderless`.
pub fn heads_tell_all()
    ensures law { HeadsTellAll }
{}
