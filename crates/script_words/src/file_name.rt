//! Names of files.

ghost use Rattle.std.specs.Prelude.{◌≡◌, ◌↔◌, IsTrue, SomeIff, nat_eq};
ghost use Rattle.std.specs.Cmp.Lexicographic.{pointwise, nat_list_eq_equiv};
ghost use Rattle.std.specs.Cmp.{partial_equiv_from_equiv};
ghost use Rattle.outside_io.specs.FileName.{is_file_name};

use outside_io::is_file_name;
use std::marker::Model;
use std::str;

/// The largest number of bytes in a file name.
const MAX_BYTES: usize = 64;

/// The name of a file: 1 to 64 letters, digits, `_`, `-` and `.`, of which the first is neither `-`
/// nor `.`.
///
/// A clause sees it as the list of its bytes.
#[derive(Clone, Copy, Debug)]
pub struct FileName {
    /// The name, and zeros after it.
    padded: [u8; MAX_BYTES],
    len: u8,
}

impl Model for FileName {
    ghost use Rattle.std.specs.Prelude.{ℕ, List, length, take};
    ghost use Rattle.script_words.specs.FileNames.{HoldsFileName, padded_file_name};

    ghost Value = { List ℕ };

    ghost view = { λ name. take name.len name.padded };

    ghost invariant = { λ name. HoldsFileName name.padded name.len };

    ghost inverse = { λ name. record { padded = padded_file_name name; len = length name } };
}

impl FileName {
    /// Returns the file name that a word is, and None exactly where it is none.
    pub fn parse(word: &[u8]) -> Option<FileName>
        ensures { SomeIff result (IsTrue (is_file_name word.now)) word.now }
    {
        if !is_file_name(word) {
            return None;
        }
        let mut padded = [0; MAX_BYTES];
        padded[..word.len()].copy_from_slice(word);
        Some(FileName {
            padded,
            len: word.len() as u8,
        })
    }

    /// Returns its bytes, 1 to 64.
    pub fn as_bytes(&self) -> &[u8]
        ensures value { result.now ≡ self.now }
        ensures name { IsTrue (is_file_name result.now) }
    {
        &self.padded[..usize::from(self.len)]
    }

    /// Returns its text.
    pub fn as_str(&self) -> &str
        ensures value { result.now ≡ self.now }
        ensures name { IsTrue (is_file_name result.now) }
    {
        str::from_utf8(self.as_bytes()).unwrap()
    }
}

impl PartialEq for FileName {
    ghost eq = { pointwise nat_eq };

    ghost laws = { partial_equiv_from_equiv nat_list_eq_equiv };

    fn eq(&self, other: &FileName) -> bool
        ensures eq { result ≡ pointwise nat_eq self.now other.now }
        ensures same { IsTrue result ↔ (self.now ≡ other.now) }
    {
        self.as_bytes() == other.as_bytes()
    }
}

impl Eq for FileName {
    ghost laws = { nat_list_eq_equiv };
}
