ghost use Rattle.std.specs.Prelude.{◌≡◌, map};
ghost use Rattle.expr_tree.specs.Order.{text_cmp};
ghost use Rattle.script_text.specs.Spelling.{lowered, name_cmp};

use std::cmp::Ordering;

fn lowered(byte: u8) -> u8
    ensures { result ≡ lowered byte }
{
    if (65..=90).contains(&byte) {
        byte + 32
    } else {
        byte
    }
}

#[tactic(auto, using(crate::proofs::Steps::name_steps))]
fn compare_lowered(a: &[u8], b: &[u8]) -> Ordering
    ensures { result ≡ text_cmp (map lowered a.now) (map lowered b.now) }
{
    for (i, x) in a.iter().enumerate() {
        if i == b.len() {
            return Ordering::Greater;
        }
        match lowered(*x).cmp(&lowered(b[i])) {
            Ordering::Equal => {}
            by_letter => return by_letter,
        }
    }
    if a.len() < b.len() {
        Ordering::Less
    } else {
        Ordering::Equal
    }
}

/// Compares two names without regard to case, a prefix first. Of names that differ in case alone the one with the lower-case
/// letter at the first difference comes first.
#[tactic(auto, using(crate::proofs::Steps::name_steps))]
pub fn compare_names(a: &str, b: &str) -> Ordering
    ensures { result ≡ name_cmp a.now b.now }
{
    match compare_lowered(a.as_bytes(), b.as_bytes()) {
        Ordering::Equal => b.as_bytes().cmp(a.as_bytes()),
        by_letter => by_letter,
    }
}
