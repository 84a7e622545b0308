ghost use Rattle.std.specs.Prelude.{◌≡◌};

use crate::CompareLevel;
use key_tree::Node;
use prg_chacha::{Side, strand};
use ring128::{Party, add};

/// Where a walk stands: a node, and the sum of what its party has added on the way down to it.
#[derive(Clone, Copy, Debug, PartialEq, Eq)]
pub struct Tally {
    pub node: Node,
    pub total: u128,
}
