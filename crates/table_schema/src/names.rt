ghost use Rattle.std.specs.Prelude.{◌≡◌, IfOk};
ghost use Rattle.std.specs.List.{list_all};
ghost use Rattle.table_schema.specs.Name.{is_name, is_word};

use std::alloc::{AllocError, Global};
use std::marker::Model;

/// The name of a column, seen as its bytes.
#[derive(Debug, Drop)]
pub struct Name {
    bytes: Vec<u8>,
}

impl Model for Name {
    ghost use Rattle.std.specs.Prelude.{List, ℕ};

    ghost Value = { List ℕ };

    ghost view = { λ a. a.bytes.items };
}

impl Name {
    /// The bytes of the name, 1 to 16 of them in a schema that was read.
    pub fn as_bytes(&self) -> &[u8]
        ensures { result.now ≡ self.now }
    {
        self.bytes.as_slice()
    }

    pub(crate) fn from_bytes(alloc: Global, bytes: &[u8]) -> Result<Name, AllocError>
        ensures { IfOk result (λ name. name ≡ bytes.now) }
    {
        Ok(Name {
            bytes: Vec::from_slice(alloc, bytes)?,
        })
    }
}

fn is_word_byte(b: u8) -> bool
    ensures { result ≡ is_word b }
{
    b.is_ascii_lowercase() || b.is_ascii_digit() || b == b'_'
}

fn all_word(bytes: &[u8]) -> bool
    ensures { result ≡ list_all is_word bytes.now }
{
    for b in bytes {
        if !is_word_byte(*b) {
            return false;
        }
    }
    true
}

/// Whether a text is the name of a column.
#[tactic(auto, unfolding(crate::specs::Name::is_name))]
pub(crate) fn is_column_name(bytes: &[u8]) -> bool
    ensures { result ≡ is_name bytes.now }
{
    match bytes {
        [] => false,
        [first, rest @ ..] => {
            first.is_ascii_lowercase()
                && all_word(rest)
                && rest.len() <= 15
                && bytes != b"value".as_slice()
        }
    }
}
