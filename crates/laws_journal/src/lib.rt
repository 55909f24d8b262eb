//! Laws of journals: sections do not overlap, an item has one result, what a kernel does agrees with the core, a journal grows entry
//! by entry, and with no kernels a script has at most one. They stand on `journal`. Each function here has no code: its contract is a
//! law.
#![tactic(auto)]

ghost use Rattle.laws_journal.specs.Laws.{SectionsApart, OneResult, AllHaveResults, RunGrows, LegalReplays, OneJournal, EntryByEntry, AttemptsAgree, PhaseIsAttempt, ClosureIsLeast, CutsPartition, AttemptsOrdered, LocksAgree, QuietComputed, QuietNamedComputed};
ghost use Rattle.laws_journal.specs.Masters.{CallsKeepSections, CellsKeepSections};
ghost use Rattle.laws_journal.specs.Runs.{BegunReplays, CellsJoin, LegalComposed, LegalStarted, RunPosts, UsedUpStays};
ghost use Rattle.laws_journal.specs.Symbols.{MembersTell, ClosuresAscend};
ghost use Rattle.laws_journal.specs.Views.{DoersAgree, HandedNeeded, ItemsAgree, ItemsStay, LivesUnlessLost, OthersPass, OwnCounted, PinsLive, StandInFinds, StretchByStretch, WaitLocksAgree};

/// Two sections that share a lock never overlap, in whatever is a replay.
pub fn sections_never_overlap()
    ensures law { SectionsApart }
{}

/// An item has at most one result.
pub fn one_result_at_most()
    ensures law { OneResult }
{}

/// Where a wait for all of some items ends, each of them has exactly one.
pub fn one_result_after_waiting()
    ensures law { AllHaveResults }
{}

/// The run uses up a journal from the front, and does not look beyond what it uses.
pub fn run_looks_no_further()
    ensures law { RunGrows }
{}

/// A legal journal is a replay, with what the run hands in.
pub fn legal_journals_replay()
    ensures law { LegalReplays }
{}

/// With no kernels a script has at most one journal.
pub fn one_journal_without_kernels()
    ensures law { OneJournal }
{}

/// A journal that grows by one entry is one step of the core, and one of each kernel's view.
pub fn entry_by_entry()
    ensures law { EntryByEntry }
{}

/// Whoever has an attempt at an item runs it, or it was dropped.
pub fn attempts_agree_with_items()
    ensures law { AttemptsAgree }
{}

/// A kernel that follows its evaluations has, in the core, the attempt that it is in; so has the stand-in.
pub fn phase_is_the_attempt()
    ensures law { PhaseIsAttempt }
{}

/// What `closure` computes is the least closed set.
pub fn closure_is_least()
    ensures law { ClosureIsLeast }
{}

/// Two lists of symbols in strict order that have the same members are one list, and a closure lists its symbols so.
pub fn ascending_symbols_are_told_by_their_members()
    ensures law { MembersTell }
    ensures closures { ClosuresAscend }
{}

/// The chunks of a list are its elements in order, and none of them is empty.
pub fn cuts_partition_the_list()
    ensures law { CutsPartition }
{}

/// An attempt enters a section only outside one, leaves one only inside, and delivers outside.
pub fn attempts_are_ordered()
    ensures law { AttemptsOrdered }
{}

/// A kernel that follows its evaluations holds locks, in the core, where what is left of its attempt goes on inside a section, and none where it
/// goes on outside.
pub fn locks_are_the_section()
    ensures law { LocksAgree }
{}

/// `quiet_value` is the value of an application that is quiet, and there is none of another.
pub fn quiet_values_are_computed()
    ensures law { QuietComputed }
{}

/// `quiet_named_value` is that of an application that is quiet but for generated names.
pub fn quiet_named_values_are_computed()
    ensures law { QuietNamedComputed }
{}

/// What is handed in counts at Submit and at Yield alone: the versions that a kernel holds change nothing.
pub fn handed_in_where_needed()
    ensures law { HandedNeeded }
{}

/// The items of the core are those that each kernel has seen, in order.
pub fn items_agree_with_views()
    ensures law { ItemsAgree }
{}

/// Entries of others pass by: a kernel sees their items, and stands where it stood.
pub fn others_pass_by()
    ensures law { OthersPass }
    ensures items { ItemsStay }
{}

/// A kernel's own count is that of its entries.
pub fn own_entries_are_counted()
    ensures law { OwnCounted }
{}

/// A kernel lives unless its view is lost.
pub fn kernels_live_unless_lost()
    ensures law { LivesUnlessLost }
{}

/// What a run posted, and what it left, are the journal; so it is where the journal is used up before the end.
pub fn runs_post_the_journal()
    ensures law { RunPosts }
    ensures begun { BegunReplays }
{}

/// A legal journal is composed of the losses in front, the cells, Close, and each kernel's run.
pub fn legal_journals_are_composed()
    ensures law { LegalComposed }
    ensures started { LegalStarted }
{}

/// A run over cells is the run over the first of them, and then over the others.
pub fn cells_are_run_in_turn()
    ensures law { CellsJoin }
{}

/// Where no entry is left, a run meets none that is another.
pub fn used_up_journals_stay_so()
    ensures law { UsedUpStays }
{}

/// Over a stretch of entries the core and a kernel's view go on from where they were.
pub fn stretches_follow_one_another()
    ensures law { StretchByStretch }
{}

/// In a wait kernel 0 holds locks exactly where the stand-in's attempt is inside a section.
pub fn locks_in_a_wait_are_the_section()
    ensures law { WaitLocksAgree }
{}

/// The master's open section is what kernel 0 holds between the master's calls, and at the end of a cell.
pub fn masters_section_is_held_by_kernel_0()
    ensures calls { CallsKeepSections }
    ensures cells { CellsKeepSections }
{}

/// An item that runs is run by its kernel, and a kernel that does not live has no attempt.
pub fn items_that_run_are_run()
    ensures law { DoersAgree }
{}

/// A pinned item that waits or runs has a living kernel.
pub fn pinned_items_have_living_kernels()
    ensures law { PinsLive }
{}

/// Where no kernel lives and a wait for items goes on, the stand-in finds an item that waits for it.
pub fn the_stand_in_finds_an_item()
    ensures law { StandInFinds }
{}
