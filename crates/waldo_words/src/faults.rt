//! Why words are refused.
ghost use Rattle.std.specs.Prelude.{◌≡◌};
ghost use Rattle.report_lines.specs.Names.{name_text};
ghost use Rattle.waldo_words.specs.declared.faults.WordFault.TheVariants.{Missing};

use report_lines::{Name, NameText};
use std::alloc::{AllocError, AllocFailed};

/// Why the words are refused: the first of them, from 0, that is bad; or the name of what is missing behind good ones; or
/// out of memory.
#[derive(Drop)]
pub enum WordFault {
    Word { index: u64 },
    Missing { name: NameText },
    Memory,
}

impl WordFault {
    /// What has this name is missing.
    pub(crate) fn missing(name: Name) -> WordFault
        ensures { result ≡ Missing (name_text name) }
    {
        WordFault::Missing {
            name: NameText::new(name),
        }
    }
}

/// Why a word is refused: it is bad, or there is not enough memory.
#[derive(Clone, Copy, Debug, PartialEq, Eq)]
pub(crate) enum ValueFault {
    Refused,
    Memory,
}

impl From<AllocError> for ValueFault {
    ghost use Rattle.std.specs.Prelude.{◌≡◌};
    ghost use Rattle.waldo_words.specs.declared.faults.ValueFault.TheVariants.{Memory};

    ghost from_gives = { λ _ e. e ≡ Memory };

    fn from(_e: AllocError) -> ValueFault {
        ValueFault::Memory
    }
}

impl<T: Drop> From<AllocFailed<T>> for ValueFault {
    ghost use Rattle.std.specs.Prelude.{◌≡◌};
    ghost use Rattle.waldo_words.specs.declared.faults.ValueFault.TheVariants.{Memory};

    ghost from_gives = { λ _ e. e ≡ Memory };

    fn from(_e: AllocFailed<T>) -> ValueFault {
        ValueFault::Memory
    }
}
