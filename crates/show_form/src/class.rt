ghost use Rattle.std.specs.Prelude.{◌≡◌, false};
ghost use Rattle.script_text.specs.Bytes.{begins_name, is_digit};
ghost use Rattle.show_form.specs.Classes.{kind_of};

/// What a byte is where no string is open.
#[derive(Clone, Copy, Debug)]
pub(crate) enum Class {
    Letter,
    Digit,
    Dash,
    Quote,
    Opening,
    Closing,
    Comma,
    Space,
    Other,
}

/// A letter or `$`.
pub(crate) fn begins_name(byte: u8) -> bool
    ensures { result ≡ begins_name byte }
{
    byte.is_ascii_lowercase() || byte.is_ascii_uppercase() || byte == b'$'
}

pub(crate) fn is_digit(byte: u8) -> bool
    ensures { result ≡ is_digit byte }
{
    byte.is_ascii_digit()
}

pub(crate) fn class_of(byte: u8) -> Class
    ensures { result ≡ kind_of byte }
{
    if begins_name(byte) {
        Class::Letter
    } else if is_digit(byte) {
        Class::Digit
    } else {
        sign_of(byte)
    }
}

fn sign_of(byte: u8) -> Class
    requires letter { begins_name byte ≡ false }
    requires digit { is_digit byte ≡ false }
    ensures { result ≡ kind_of byte }
{
    match byte {
        b'-' => Class::Dash,
        b'"' => Class::Quote,
        b'[' => Class::Opening,
        b']' => Class::Closing,
        b',' => Class::Comma,
        b' ' => Class::Space,
        _ => Class::Other,
    }
}
