//! The rows that try a pattern or rules on expressions, as one machine: MatchQ, MemberQ, FreeQ, Cases and Count go over expressions in
//! turn (`Scan`), ReplaceAll and ReplaceRepeated over the places of one (`Walk`). Each trial is one of `rule_frames`; the machine asks for
//! the values of guards, until it has the result of its row.
#![tactic(auto)]

mod level;
mod parts;
mod pattern_rows;
mod repeated;
mod rounds;
mod rule_row;
mod rule_sets;
mod scan;
mod tally;
mod walk;

pub use level::{Elements, Level};
pub use repeated::Repeated;
pub use rounds::Rounds;
pub use rule_row::{RuleRow, start};
pub use scan::{Present, Scan};
pub use tally::{Pick, Tally};
pub use walk::{Walk, Walked};
