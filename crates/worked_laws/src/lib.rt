//! Worked rows of the laws on limits and modes, closed sets, module numbers, shifted names and applications that are quiet, or quiet
//! but for generated names: for each law an evaluation that it speaks of, and one where a premise fails and with it what the law
//! says. There is no code here.
#![tactic(auto)]
