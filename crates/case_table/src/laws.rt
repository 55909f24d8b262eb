ghost use Rattle.std.specs.Prelude.{map};
ghost use Rattle.script_text.specs.Laws.{AreDistinct};
ghost use Rattle.semantics.specs.Builtin.{rows};
ghost use Rattle.semantics.specs.Texts.{row_text};
ghost use Rattle.syntax.specs.Signs.{signs, sign_text};

/// The names of the built-in table differ.
pub fn built_in_names_differ()
    ensures law { AreDistinct (map row_text rows) }
{}

/// The texts of the operators and brackets differ.
pub fn operators_differ()
    ensures law { AreDistinct (map sign_text signs) }
{}
