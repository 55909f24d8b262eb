ghost use Rattle.std.specs.Prelude.{◌≡◌, map};
ghost use Rattle.syntax.specs.Signs.{signs, sign_text};
ghost use Rattle.case_table.specs.Entries.{entries, operator_entry, language_sign};

use crate::sign::Sign;
use crate::table::{CaseTable, Code, Row};
use expr_tree::Attrs;

/// The number of the operators and brackets.
pub const OPERATORS: usize = 48;

// each operator and bracket, a longer one before each that it begins with, and its text
macro_rules! each_operator {
    ($make:ident $($argument:tt)*) => {
        $make! {
            $($argument)*
            (SameSign "===")
            (UnsameSign "=!=")
            (SlashSlashDot "//.")
            (CaretColonEqual "^:=")
            (PlusPlus "++")
            (MinusMinus "--")
            (SlashAt "/@")
            (AtAt "@@")
            (EqualEqual "==")
            (BangEqual "!=")
            (LessEqual "<=")
            (GreaterEqual ">=")
            (AndAnd "&&")
            (BarBar "||")
            (SlashSemicolon "/;")
            (Arrow "->")
            (ColonGreater ":>")
            (SlashDot "/.")
            (PlusEqual "+=")
            (MinusEqual "-=")
            (StarEqual "*=")
            (SlashSlash "//")
            (ColonEqual ":=")
            (CaretEqual "^=")
            (AssignDot "=.")
            (SlashColon "/:")
            (Query "?")
            (At "@")
            (Caret "^")
            (Minus "-")
            (Slash "/")
            (Star "*")
            (Plus "+")
            (Less "<")
            (Greater ">")
            (Bang "!")
            (Bar "|")
            (Colon ":")
            (Ampersand "&")
            (Assign "=")
            (Semicolon ";")
            (OpenParen "(")
            (CloseParen ")")
            (OpenBracket "[")
            (CloseBracket "]")
            (OpenBrace "{")
            (CloseBrace "}")
            (Comma ",")
        }
    };
}

macro_rules! operator_rows {
    ($(($code:ident $name:literal))*) => {
        [$(Row {
            name: $name,
            attrs: NONE,
            code: Code::Operator(Sign::$code),
        }),*]
    };
}

const NONE: Attrs = Attrs {
    flat: false,
    orderless: false,
    listable: false,
    hold_first: false,
    hold_rest: false,
    hold_all: false,
    hold_all_complete: false,
    sequence_hold: false,
    one_identity: false,
    protected: false,
};

static ROWS: [Row; OPERATORS] = each_operator!(operator_rows);

/// The operators and brackets.
pub fn operators() -> CaseTable
    ensures { entries result.rows.now ≡ map operator_entry signs }
{
    CaseTable { rows: &ROWS }
}

macro_rules! operator_names {
    ($chosen:tt $(($code:ident $name:literal))*) => {
        match $chosen {
            $(Sign::$code => $name,)*
        }
    };
}

impl Sign {
    /// How it is written.
    pub fn name(self) -> &'static str
        ensures { result.now ≡ sign_text (language_sign self) }
    {
        each_operator!(operator_names self)
    }
}
