ghost use Rattle.laws_reading.specs.Laws.{CellsAreSmall, KeptIsCut};

/// A cell of at most 1,048,576 bytes is read as at most 4,000,000 atoms, so a reader has to look at the depth alone.
pub fn cells_are_read_small()
    ensures law { CellsAreSmall }
{}

/// A reader may leave out what is beyond the limits as it goes: what it has in the end is the reading, cut at the limits.
pub fn what_is_kept_is_cut()
    ensures law { KeptIsCut }
{}
