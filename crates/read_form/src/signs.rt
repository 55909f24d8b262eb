//! The operators and brackets that tokens write.
ghost use Rattle.std.specs.Prelude.{◌≡◌};
ghost use Rattle.std.specs.Ordering.{is_eq};
ghost use Rattle.expr_tree.specs.Order.{text_cmp};
ghost use Rattle.syntax.specs.Signs as syn;
ghost use Rattle.case_table.specs.Entries.{language_sign};

use case_table::{Code, Sign, operators};

fn is_written(name: &str, word: &[u8]) -> bool
    ensures { result ≡ is_eq (text_cmp name.now word.now) }
{
    name.as_bytes() == word
}

/// The operator or bracket that is written so.
pub(crate) fn sign_of(word: &[u8]) -> Sign
    ensures { language_sign result ≡ syn.sign_of word.now }
{
    for row in operators().rows {
        if is_written(row.name, word) {
            match row.code {
                Code::Operator(sign) => return sign,
                Code::Builtin(_) => unreachable!(),
            }
        }
    }
    Sign::Comma
}
