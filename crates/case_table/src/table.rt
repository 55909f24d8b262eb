ghost use Rattle.std.specs.Prelude.{map};
ghost use Rattle.case_table.specs.Entries.{entries};
ghost use Rattle.case_table.specs.Place.{IsPlace};

use crate::sign::Sign;
use expr_tree::Attrs;
use semantics::Builtin;

/// What a name of a table names.
#[derive(Clone, Copy, Debug, PartialEq, Eq)]
pub enum Code {
    Builtin(Builtin),
    Operator(Sign),
}

/// A name, the attributes that it has at the start, and what it names.
#[derive(Clone, Copy, Debug)]
pub struct Row {
    pub name: &'static str,
    pub attrs: Attrs,
    pub code: Code,
}

/// A table of names.
#[derive(Clone, Copy, Debug)]
pub struct CaseTable {
    pub rows: &'static [Row],
}

impl CaseTable {
    /// The place of a name.
    pub fn find(&self, name: &str) -> Option<usize>
        ensures { IsPlace name.now (map (λ e. e.name) (entries self.now.rows.now)) result }
    {
        self.rows.iter().position(|row| row.name == name)
    }
}
