ghost use Rattle.std.specs.Prelude.{◌≡◌, ◌≤◌, length};
ghost use Rattle.script_text.specs.Bytes.{begins_name, is_white, run};
ghost use Rattle.lex_form.specs.Scans.{in_class};

/// A kind of bytes of which tokens have runs.
#[derive(Clone, Copy, Debug)]
pub(crate) enum Class {
    Digit,
    InName,
    Underscore,
}

/// A letter or `$`.
pub(crate) fn begins_name(byte: u8) -> bool
    ensures { result ≡ begins_name byte }
{
    byte.is_ascii_lowercase() || byte.is_ascii_uppercase() || byte == b'$'
}

pub(crate) fn is_white(byte: u8) -> bool
    ensures { result ≡ is_white byte }
{
    byte == b' ' || byte == b'\t' || byte == b'\r' || byte == b'\n'
}

impl Class {
    pub(crate) fn has(self, byte: u8) -> bool
        ensures { result ≡ in_class self byte }
    {
        match self {
            Class::Digit => byte.is_ascii_digit(),
            Class::InName => begins_name(byte) || byte.is_ascii_digit(),
            Class::Underscore => byte == b'_',
        }
    }

    /// How many bytes at the front are of this kind.
    pub(crate) fn run(self, text: &[u8]) -> usize
        ensures run { result ≡ run (in_class self) text.now }
        ensures within { result ≤ length text.now }
    {
        let mut len = 0;
        for byte in text {
            if !self.has(*byte) {
                return len;
            }
            len += 1;
        }
        len
    }
}
