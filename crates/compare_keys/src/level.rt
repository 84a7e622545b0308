ghost use Rattle.std.specs.Prelude.{◌≡◌};

use crate::tally::Tally;
use key_tree::{KeyLevel, Level, Node};
use prg_chacha::{Seed, Side, strand, strands};
use ring128::{Memory, Party, add};

/// A level of the tree, and its value correction.
#[derive(Clone, Copy, Debug, PartialEq, Eq)]
pub struct CompareLevel {
    pub level: Level,
    pub value: u128,
}

impl CompareLevel {
    ghost use Rattle.compare_keys.specs.Compares.{corrected};

    // What a party adds at a node: the strand of the side that it takes, with the value correction where
    // the node's bit is set.
    fn corrected(&self, node: &Node, strand: u128) -> u128
        ensures { result ≡ corrected self.now.value node.now strand }
    {
        let correction = if node.bit { self.value } else { 0 };
        add(strand, correction)
    }
}

impl KeyLevel for CompareLevel {
    ghost use Rattle.compare_keys.specs.Compares.{top, below, number};
    ghost use Rattle.compare_keys.specs.CompareWords.{level_words, level_read};
    ghost use Rattle.std.proofs.Common.{rules};

    type Place = Tally;

    ghost WIDTH = { 4 };

    ghost top = { top };

    ghost below = { below };

    ghost number = { number };

    ghost words = { level_words };

    ghost read = { level_read };

    ghost wide = { Prim.search rules };

    ghost long = { Prim.search rules };

    const WIDTH: usize = 4;

    fn top(party: Party, root: &Seed) -> Tally {
        Tally {
            node: Node::start(party, root),
            total: 0,
        }
    }

    fn below(&self, place: &Tally, side: Side) -> Tally {
        let added = self.corrected(&place.node, strand(&place.node.seed, side));
        Tally {
            node: place.node.step(&self.level, side),
            total: add(place.total, added),
        }
    }

    fn both(&self, place: &Tally) -> (Tally, Tally) {
        let (left, right) = place.node.children(&self.level);
        let (on_left, on_right) = strands(&place.node.seed);
        (
            Tally {
                node: left,
                total: add(place.total, self.corrected(&place.node, on_left)),
            },
            Tally {
                node: right,
                total: add(place.total, self.corrected(&place.node, on_right)),
            },
        )
    }

    fn number(last: u128, place: &Tally) -> u128 {
        add(place.total, place.node.number(last))
    }

    fn push_words(&self, to: &mut Vec<u128>) -> Result<(), Memory> {
        self.level.push_words(to)?;
        to.push(self.value)?;
        Ok(())
    }

    fn read(from: &[u128]) -> CompareLevel {
        CompareLevel {
            level: Level::read(&from[..3]),
            value: from[3],
        }
    }
}
