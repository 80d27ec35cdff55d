//! Names of files.

ghost use Rattle.std.specs.Prelude.{◌≡◌};
ghost use Rattle.std.specs.List.{list_all};
ghost use Rattle.outside_io.specs.FileName.{is_file_name, is_name_byte, may_begin};

/// Returns whether a shelf may be asked for a file of this name: 1 to 64 letters, digits, `_`, `-` and `.`,
/// the first neither `-` nor `.`.
pub fn is_file_name(name: &[u8]) -> bool
    ensures { result ≡ is_file_name name.now }
{
    let Some((first, others)) = name.split_first() else {
        return false;
    };
    may_begin(*first) && others.len() <= 63 && has_name_bytes(name)
}

/// Returns whether a name may begin with this byte.
fn may_begin(byte: u8) -> bool
    ensures { result ≡ may_begin byte }
{
    byte != b'.' && byte != b'-'
}

/// Returns whether all these bytes may be in a name.
fn has_name_bytes(bytes: &[u8]) -> bool
    ensures { result ≡ list_all is_name_byte bytes.now }
{
    bytes.iter().all(|byte| is_name_byte(*byte))
}

/// Returns whether a byte may be in a name.
fn is_name_byte(byte: u8) -> bool
    ensures { result ≡ is_name_byte byte }
{
    matches!(byte, b'a'..=b'z' | b'A'..=b'Z' | b'0'..=b'9' | b'_' | b'-' | b'.')
}
