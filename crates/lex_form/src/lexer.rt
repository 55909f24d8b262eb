ghost use Rattle.std.specs.Prelude.{◌≡◌, IfOk};
ghost use Rattle.syntax.specs.Tokens as syn;
ghost use Rattle.lex_form.specs.Lexes.{lexed, fault_of};
ghost use Rattle.lex_form.specs.Scans.{reason_of};

use crate::fault::LexFault;
use crate::leaves::behind;
use crate::scanner::{Reason, Scan, scan_front};
use crate::token::{Lexed, Token, Tokens};
use std::alloc::{AllocError, Global};

impl Reason {
    fn at(self, place: usize) -> LexFault
        ensures { fault_of result ≡ reason_of self place }
    {
        match self {
            Reason::BadByte => LexFault::BadByte(place),
            Reason::OpenString => LexFault::OpenString(place),
            Reason::OpenComment => LexFault::OpenComment(place),
            Reason::WideNumber => LexFault::WideNumber(place),
        }
    }
}

/// The tokens of a text up to the first fault, at each place the longest one.
pub fn lex(alloc: Global, text: &str) -> Result<Lexed, AllocError>
    ensures { IfOk result (λ l. lexed l ≡ syn.lex text.now) }
{
    let bytes = text.as_bytes();
    let mut tokens = Tokens::new(alloc);
    let mut at = 0;
    while at < bytes.len() {
        match scan_front(behind(bytes, at)) {
            Scan::Takes(kind, len) => {
                let from = at;
                at += len;
                tokens.push(Token { kind, from, to: at })?;
            }
            Scan::Skips(len) => at += len,
            Scan::Faults(reason, len) => {
                let fault = Some(reason.at(at + len));
                return Ok(Lexed { tokens, fault });
            }
        }
    }
    Ok(Lexed {
        tokens,
        fault: None,
    })
}
