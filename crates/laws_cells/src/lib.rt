//! Laws that join the calls of an evaluation in `laws_calls` with the run along a journal in `journal` and its laws in `laws_journal`: where
//! a cell leaves the master, and where the master waits. Each function here has no code: its contract is a law.
#![tactic(auto)]

ghost use Rattle.laws_cells.specs.Cells.{CellsEndOutside};
ghost use Rattle.laws_cells.specs.Rest.{CellsKeepRest, RunsRest, WaitsAgree};

/// A cell that ends along a journal ends with a value, a stop or a throw, and with no section open, so the next one begins where it may.
pub fn cells_end_outside_sections()
    ensures law { CellsEndOutside }
{}

/// From one cell to the next no section is open, no wait stands, and kernel 0 holds no lock.
pub fn the_master_rests_between_cells()
    ensures law { RunsRest }
    ensures cells { CellsKeepRest }
{}

/// The master waits for items and for locks outside sections alone, so at each point of a wait kernel 0 holds what the stand-in's attempt does.
pub fn locks_agree_at_each_wait()
    ensures law { WaitsAgree }
{}
