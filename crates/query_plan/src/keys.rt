ghost use Rattle.std.specs.Prelude.{◌≡◌, ◌<◌, ◌≤◌, ◌%◌, ℕ, IfOk, length};
ghost use Rattle.query_plan.specs.KeyMessages.{message_length, message_words, part_at};
ghost use Rattle.query_plan.specs.Laws.{AreKeysOf};
ghost use Rattle.query_plan.specs.Query.{Suits, shaped};
ghost use Rattle.query_plan.specs.Seeds.{weights_of};
ghost use Rattle.query_plan.specs.Views.{key_from};

use crate::draft::Draft;
use crate::laws;
use crate::query::{Query, shape_of};
use crate::weights::key_of;
use prg_chacha::Seed;
use ring128::{Memory, Words};
use std::alloc::Global;
use std::marker::Model;
use table_schema::{Shape, Widths};

/// The keys of a query over the columns of some widths, made from a seed: three key messages, one for each server. A
/// contract sees of it what it was made for.
#[derive(Drop)]
pub struct Keys {
    query: Query,
    widths: Widths,
    seed: Seed,
    zero: Words,
    one: Words,
    two: Words,
}

impl Model for Keys {
    ghost use Rattle.std.specs.Prelude.{◌≡◌, length};
    ghost use Rattle.query_plan.specs.KeyMessages.{Asked, message_words};
    ghost use Rattle.query_plan.specs.Query.{Suits};

    ghost Value = { Asked };

    ghost view = { λ a. record { query = a.query; widths = a.widths; seed = a.seed } };

    ghost invariant = { λ a. Suits a.widths.columns a.widths.bits a.query
        × (length a.query.predicates ≡ 4)
        × (a.zero ≡ message_words a.query a.widths.bits a.seed 0)
        × (a.one ≡ message_words a.query a.widths.bits a.seed 1)
        × (a.two ≡ message_words a.query a.widths.bits a.seed 2) };
}

/// Makes the keys of a query that suits the widths, from the query's seed. What the three servers read from their
/// messages are keys of this query, with weight 1 in run 0 and with the weights of the seed in run 1. The only error
/// is out of memory.
pub fn make_keys(alloc: Global, query: &Query, widths: &Widths, seed: &Seed) -> Result<Keys, Memory>
    requires suits { Suits widths.now.columns widths.now.bits query.now }
    ensures made { IfOk result (λ k. k ≡ record { query = query.now; widths = widths.now; seed = seed.now }) }
    ensures add_up { IfOk result AreKeysOf }
{
    laws::keys_add_up();
    let mut draft = Draft::new(alloc, seed)?;
    draft.push_run(alloc, query, widths, seed, 0)?;
    draft.push_run(alloc, query, widths, seed, 1)?;
    let Draft { zero, one, two } = draft;
    Ok(Keys {
        query: *query,
        widths: *widths,
        seed: *seed,
        zero: Words::from_vec(zero),
        one: Words::from_vec(one),
        two: Words::from_vec(two),
    })
}

impl Keys {
    /// The key: the product of the weights of run 1, by which the client tests the two totals. It is odd.
    pub fn key(&self) -> u128
        ensures key { result ≡ key_from (weights_of self.now.seed 1) self.now.query.count }
        ensures odd { result % 2 ≡ 1 }
    {
        key_of(&self.query, &self.seed)
    }

    /// What is not secret of the query. What the three servers read from their messages by this shape are keys of the
    /// query.
    pub fn shape(&self) -> Shape
        ensures shape { result ≡ shaped self.now.query }
        ensures suits { Suits self.now.widths.columns self.now.widths.bits self.now.query }
        ensures few { result.count ≤ 4 }
        ensures there { (j : ℕ) → j < result.count → (part_at result j).column < self.now.widths.columns }
        ensures add_up { AreKeysOf self.now }
    {
        laws::keys_add_up();
        shape_of(&self.query)
    }

    /// The widths that the keys were made for.
    pub fn widths(&self) -> Widths
        ensures { result ≡ self.now.widths }
    {
        self.widths
    }

    /// The words of the key message to a server: its seed of parts of zero and the next server's, two words each, and
    /// then for run 0 and for run 1, for each predicate in order, the words of its key of party 0 for its own share and
    /// those of its key of party 1 for the next server's share. The only error is out of memory.
    pub fn message(&self, alloc: Global, server: u8) -> Result<Words, Memory>
        requires { server < 3 }
        ensures words { IfOk result (λ w. w ≡ message_words self.now.query self.now.widths.bits self.now.seed server) }
        ensures length { IfOk result (λ w. length w ≡ message_length (shaped self.now.query) self.now.widths.bits) }
    {
        laws::messages_are_long();
        let words = match server {
            0 => self.zero.as_slice(),
            1 => self.one.as_slice(),
            _ => self.two.as_slice(),
        };
        Ok(Words::from_vec(Vec::from_slice(alloc, words)?))
    }
}
