//! The characters of a string.

ghost use Rattle.std.specs.Prelude.{◌≡◌};
ghost use Rattle.lc3_table.specs.Statements.{escape, is_string_byte};

/// What an escape of a string writes, by the character after its backslash.
pub fn escape(byte: u8) -> Option<u8>
    ensures value { result ≡ escape byte }
{
    match byte {
        b'n' => Some(b'\n'),
        b't' => Some(b'\t'),
        b'r' => Some(b'\r'),
        b'a' => Some(0x07),
        b'b' => Some(0x08),
        b'f' => Some(0x0C),
        b'v' => Some(0x0B),
        b'e' => Some(0x1B),
        b'0' => Some(0),
        b'"' | b'\\' => Some(byte),
        _ => None,
    }
}

/// Whether a string may have this character: a printable one of ASCII, or a tab.
pub fn is_string_byte(byte: u8) -> bool
    ensures value { result ≡ is_string_byte byte }
{
    matches!(byte, 0x20..=0x7E | b'\t')
}
