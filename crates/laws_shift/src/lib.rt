//! Laws of shifted names: an evaluation goes the same way from another module number, but for the generated names. The rows are
//! compared by the lemmas of `laws_relations`, and the bound on the numbers taken is that of `laws_numbers`. Each function here has
//! no code: its contract is a law, of evaluations that made no call and did not ask for the mode.
#![tactic(auto)]

ghost use Rattle.laws_shift.specs.Carried.{CarriedOver};
ghost use Rattle.laws_shift.specs.Shift.{AnyModuleNumber, ShiftedNames};

/// Where the numbers of symbols are shifted from a bound on, evaluation goes the same way: it ends in as many steps with the shifted value and the
/// shifted definitions.
pub fn shifted_names_change_no_evaluation()
    ensures law { ShiftedNames }
{}

/// From a greater module number evaluation goes the same way, where no symbol has a number that a Module may still take: only generated names differ.
pub fn module_numbers_show_in_names_alone()
    ensures law { AnyModuleNumber }
{}

/// The same from definitions that agree on a closed set alone, as those of a kernel and of the master do: but for generated names an expression of
/// the set is evaluated alike.
pub fn a_closed_set_serves_at_any_module_number()
    ensures law { CarriedOver }
{}
