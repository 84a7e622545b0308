ghost use Rattle.std.specs.Prelude.{◌≡◌, ◌<◌, IfOk, length};
ghost use Rattle.query_plan.specs.KeyMessages.{pair_at};
ghost use Rattle.query_plan.specs.PredicateKeys.{key_in, table_of};

use crate::key::KeyPair;
use prg_chacha::Seed;
use ring128::{Memory, Party, Words};
use std::alloc::Global;
use std::marker::Model;

/// What a server keeps of its key message: its seed of zero parts and the next server's, and by run and
/// predicate its two keys, as many in one run as in the other.
#[derive(Drop)]
pub struct ServerKeys {
    own: Seed,
    next: Seed,
    run0: Vec<KeyPair>,
    run1: Vec<KeyPair>,
}

impl Model for ServerKeys {
    ghost use Rattle.std.specs.Prelude.{◌≡◌, length};
    ghost use Rattle.query_plan.specs.KeyMessages.{KeysRead};

    ghost Value = { KeysRead };

    ghost view = { λ a. record {
      own = a.own;
      next = a.next;
      run0 = a.run0.items;
      run1 = a.run1.items;
    } };

    ghost invariant = { λ a. length a.run1.items ≡ length a.run0.items };
}

impl ServerKeys {
    // The keys of these parts.
    pub(crate) fn new(own: Seed, next: Seed, run0: Vec<KeyPair>, run1: Vec<KeyPair>) -> ServerKeys
        requires { length run1.items ≡ length run0.items }
        ensures { result ≡ record { own = own; next = next; run0 = run0.items; run1 = run1.items } }
    {
        ServerKeys {
            own,
            next,
            run0,
            run1,
        }
    }

    /// The server's seed of zero parts, and the next server's.
    pub fn zeros(&self) -> (Seed, Seed)
        ensures own { result.0 ≡ self.now.own }
        ensures next { result.1 ≡ self.now.next }
    {
        (self.own, self.next)
    }

    /// How many predicates have keys.
    pub fn count(&self) -> usize
        ensures run0 { result ≡ length self.now.run0 }
        ensures run1 { result ≡ length self.now.run1 }
    {
        self.run0.len()
    }

    /// The values at all buckets, in order, of the key of a party for predicate `j` in run 0 or 1. As party 0
    /// the server holds a key for its own share, as party 1 one for the next server's.
    pub fn table(&self, alloc: Global, run: u8, j: u8, party: Party) -> Result<Words, Memory>
        requires run { run < 2 }
        requires predicate { j < length self.now.run0 }
        ensures { IfOk result (λ w. w ≡ table_of party (key_in party (pair_at self.now run j))) }
    {
        self.pair(run, j).table(alloc, party)
    }

    // The keys of predicate j in a run.
    fn pair(&self, run: u8, j: u8) -> &KeyPair
        requires run { run < 2 }
        requires predicate { j < length self.now.run0 }
        ensures { result.now ≡ pair_at self.now run j }
    {
        if run == 0 {
            &self.run0[j as usize]
        } else {
            &self.run1[j as usize]
        }
    }
}
