ghost use Rattle.std.specs.Prelude.{◌≡◌, ◌++◌, [], IfOk, OnOk, OnErr, length, slice_get, encode_utf8, string_bytes};
ghost use Rattle.std.specs.Str.{bytes_eq};

use std::alloc::{AllocError, Global};
use std::marker::Model;
use std::sync::Arc;

/// A text in UTF-8, which contracts see as its bytes.
#[derive(Debug, Drop)]
pub struct Text {
    held: Held,
}

/// A text that is written to has one owner. One that was made whole is shared, so that its copies are not copies of the bytes.
#[derive(Debug, Drop)]
enum Held {
    Own(String),
    Shared(Arc<String>),
}

impl Model for Text {
    ghost use Rattle.std.specs.Prelude.{ℕ, List};
    ghost use Rattle.expr_tree.specs.Held.{bytes_of};

    ghost Value = { List ℕ };

    ghost view = { λ t. bytes_of t.held };
}

impl Text {
    /// The empty text.
    pub fn new(alloc: Global) -> Text
        ensures { result ≡ [] }
    {
        Text {
            held: Held::Own(String::new(alloc)),
        }
    }

    /// This text, ready to be shared.
    pub fn of(alloc: Global, text: &str) -> Result<Text, AllocError>
        ensures { IfOk result (λ t. t ≡ text.now) }
    {
        Ok(Text {
            held: Held::Shared(Arc::new(alloc, String::from_str(alloc, text)?)?),
        })
    }

    /// The same text, ready to be shared: a later `copy` copies no bytes.
    pub fn shared(self, alloc: Global) -> Result<Text, AllocError>
        ensures { IfOk result (λ t. t ≡ self) }
    {
        Ok(match self.held {
            Held::Own(text) => Text {
                held: Held::Shared(Arc::new(alloc, text)?),
            },
            Held::Shared(text) => Text {
                held: Held::Shared(text),
            },
        })
    }

    /// The number of its bytes.
    pub fn len(&self) -> usize
        ensures { result ≡ length self.now }
    {
        self.as_str().len()
    }

    /// The byte at a place.
    pub fn get(&self, at: usize) -> Option<u8>
        ensures { result ≡ slice_get self.now at }
    {
        self.as_str().as_bytes().get(at).copied()
    }

    /// Adds a character at the end, in UTF-8.
    pub fn push(&mut self, character: char) -> Result<(), AllocError>
        ensures ok { OnOk result (self.new ≡ self.old ++ encode_utf8 character) }
        ensures err { OnErr result (self.new ≡ self.old) }
    {
        match &mut self.held {
            Held::Own(text) => text.push(character),
            Held::Shared(text) => {
                let mut own = bytes_copied(text)?;
                own.push(character)?;
                self.held = Held::Own(own);
                Ok(())
            }
        }
    }

    /// Adds a text at the end.
    pub fn append(&mut self, more: &str) -> Result<(), AllocError>
        ensures ok { OnOk result (self.new ≡ self.old ++ more.now) }
        ensures err { OnErr result (self.new ≡ self.old) }
    {
        match &mut self.held {
            Held::Own(text) => text.push_str(more),
            Held::Shared(text) => {
                let mut own = bytes_copied(text)?;
                own.push_str(more)?;
                self.held = Held::Own(own);
                Ok(())
            }
        }
    }

    /// The text as a `str`.
    pub fn as_str(&self) -> &str
        ensures { result.now ≡ self.now }
    {
        match &self.held {
            Held::Own(text) => text.as_str(),
            Held::Shared(text) => text.as_str(),
        }
    }

    /// The same text. No bytes are copied where it is ready to be shared, and the copy always is.
    pub fn copy(&self, alloc: Global) -> Result<Text, AllocError>
        ensures { IfOk result (λ t. t ≡ self.now) }
    {
        match &self.held {
            Held::Own(text) => Text::of(alloc, text.as_str()),
            Held::Shared(text) => Ok(Text {
                held: Held::Shared(Arc::try_clone(text)?),
            }),
        }
    }

    /// Whether the two have the same bytes.
    pub fn equals(&self, other: &Text) -> bool
        ensures { result ≡ bytes_eq self.now other.now }
    {
        self.as_str() == other.as_str()
    }
}

fn bytes_copied(text: &String) -> Result<String, AllocError>
    ensures { IfOk result (λ t. string_bytes t ≡ string_bytes text.now) }
{
    text.clone()
}
