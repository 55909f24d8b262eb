//! What the two places of a chunk say of a list.
ghost use Rattle.par_plan.specs.Plan.{ChunksAreBetween};

/// The chunk of a list has the elements between its two places.
pub fn chunks_are_between()
    ensures law { ChunksAreBetween }
{}
