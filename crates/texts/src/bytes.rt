// Tests of one byte.
ghost use Rattle.std.specs.Prelude.{◌≡◌};
ghost use Rattle.texts.specs.Bytes.{name_byte, space_byte};

// A letter, a digit or an underscore.
pub fn in_name(b: u8) -> bool
    ensures { result ≡ name_byte b }
{
    b.is_ascii_alphanumeric() || b == b'_'
}

// A space, a tab or a carriage return.
pub fn is_space(b: u8) -> bool
    ensures { result ≡ space_byte b }
{
    b == b' ' || b == b'\t' || b == b'\r'
}
