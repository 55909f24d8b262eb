//! Laws of the list behind the desk of turns: which lists are those of an opening and of entries, what such a list tells, what one
//! that grows keeps, and the names that an opening and a script give. They stand on `journal` and on `turn_desk`. Each function here has no code:
//! its contract is a law.
#![tactic(auto)]

ghost use Rattle.laws_members.specs.Listed.{ListedAreMembers, PartsAreTold, EntriesAdded, BeginningsKept, KernelsEntries, OpensNames};
ghost use Rattle.laws_members.specs.Scripts.{OpeningsHaveNames, ScriptsHaveRows};

/// A list has one opening in front, and then entries under their kernels, exactly where it is that of an opening and of entries.
pub fn such_lists_are_of_an_opening_and_entries()
    ensures law { ListedAreMembers }
{}

/// Such a list tells the opening, the entries and the journal that it is made of.
pub fn the_list_tells_its_parts()
    ensures law { PartsAreTold }
{}

/// Entries that are added, each under its kernel, are further entries of the list.
pub fn added_entries_are_of_the_list()
    ensures law { EntriesAdded }
{}

/// Where a list begins another, its entries begin those of the other, and its opening is that of the other.
pub fn beginnings_are_kept()
    ensures law { BeginningsKept }
{}

/// Under a number stand exactly that kernel's entries, and under 0 the opening before them.
pub fn each_kernel_has_its_entries()
    ensures law { KernelsEntries }
{}

/// An opening gives names where no two of its texts are the same and those of all rows are among them.
pub fn openings_give_names()
    ensures law { OpensNames }
{}

/// The names of a script are distinct texts with those of all rows among them, so each opening that a run makes of it gives names.
pub fn scripts_have_names()
    ensures law { OpeningsHaveNames }
    ensures texts { ScriptsHaveRows }
{}
