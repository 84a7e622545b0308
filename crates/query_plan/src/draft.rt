// The three key messages of a query while they are written.

ghost use Rattle.std.specs.Prelude.{◌≡◌, ◌<◌, ◌++◌, ◌∷◌, [], IfOk, OnOk};
ghost use Rattle.ring128.specs.declared.party.Party.TheVariants.{Zero, One};
ghost use Rattle.query_plan.specs.Query.{IsPredicate, Suits, predicate_at};
ghost use Rattle.query_plan.specs.KeyMessages.{key_at, pair_words, run_words, seed_words};
ghost use Rattle.query_plan.specs.PredicateKeys.{words_of_key};

use crate::pair::{generate, roots, to_words};
use crate::query::Query;
use crate::weights::weight;
use prg_chacha::{Seed, derive};
use ring128::{Memory, Words};
use std::alloc::Global;
use table_schema::Widths;

// The most words of a key message: two seeds of two words, and in each of two runs two keys for each of four predicates, of
// at most 70 words each (an interval over 8 bits).
const MOST_WORDS: usize = 4 + 2 * 2 * 4 * 70;

/// The words of the three key messages so far.
#[derive(Drop)]
pub(crate) struct Draft {
    pub(crate) zero: Vec<u128>,
    pub(crate) one: Vec<u128>,
    pub(crate) two: Vec<u128>,
}

impl Draft {
    /// Messages that have their two seeds each.
    pub(crate) fn new(alloc: Global, seed: &Seed) -> Result<Draft, Memory>
        ensures zero { IfOk result (λ d. d.zero.items ≡ seed_words seed.now 0) }
        ensures one { IfOk result (λ d. d.one.items ≡ seed_words seed.now 1) }
        ensures two { IfOk result (λ d. d.two.items ≡ seed_words seed.now 2) }
    {
        let zero = seeds(alloc, seed, 0)?;
        let one = seeds(alloc, seed, 1)?;
        let two = seeds(alloc, seed, 2)?;
        Ok(Draft { zero, one, two })
    }

    /// Appends the keys of all predicates in a run.
    pub(crate) fn push_run(
        &mut self,
        alloc: Global,
        query: &Query,
        widths: &Widths,
        seed: &Seed,
        run: u8,
    ) -> Result<(), Memory>
        requires run { run < 2 }
        requires suits { Suits widths.now.columns widths.now.bits query.now }
        ensures zero { OnOk result (self.new.zero.items ≡ self.old.zero.items ++ run_words query.now widths.now.bits seed.now 0 run) }
        ensures one { OnOk result (self.new.one.items ≡ self.old.one.items ++ run_words query.now widths.now.bits seed.now 1 run) }
        ensures two { OnOk result (self.new.two.items ≡ self.old.two.items ++ run_words query.now widths.now.bits seed.now 2 run) }
    {
        for j in 0..query.count {
            self.push_predicate(alloc, query, widths, seed, run, j)?;
        }
        Ok(())
    }

    // Appends the keys of one predicate in a run: to message k that of party 0 for share k, and that of party 1 for share k + 1.
    fn push_predicate(
        &mut self,
        alloc: Global,
        query: &Query,
        widths: &Widths,
        seed: &Seed,
        run: u8,
        j: u8,
    ) -> Result<(), Memory>
        requires run { run < 2 }
        requires place { j < 4 }
        requires legal { IsPredicate widths.now.columns widths.now.bits (predicate_at query.now j) }
        ensures zero { OnOk result (self.new.zero.items ≡ self.old.zero.items ++ pair_words query.now widths.now.bits seed.now 0 run j) }
        ensures one { OnOk result (self.new.one.items ≡ self.old.one.items ++ pair_words query.now widths.now.bits seed.now 1 run j) }
        ensures two { OnOk result (self.new.two.items ≡ self.old.two.items ++ pair_words query.now widths.now.bits seed.now 2 run j) }
    {
        let (first0, first1) = share(alloc, query, widths, seed, run, j, 0)?;
        let (second0, second1) = share(alloc, query, widths, seed, run, j, 1)?;
        let (third0, third1) = share(alloc, query, widths, seed, run, j, 2)?;
        append(&mut self.zero, &first0, &second1)?;
        append(&mut self.one, &second0, &third1)?;
        append(&mut self.two, &third0, &first1)?;
        Ok(())
    }
}

// The words of the seeds of zero of server k and of the next one, with room for all that a message may have.
fn seeds(alloc: Global, seed: &Seed, k: u8) -> Result<Vec<u128>, Memory>
    requires { k < 3 }
    ensures { IfOk result (λ w. w.items ≡ seed_words seed.now k) }
{
    let (own_low, own_high) = derive(seed, 16, u16::from(k), 0).halves();
    let (next_low, next_high) = derive(seed, 16, u16::from((k + 1) % 3), 0).halves();
    let mut words = Vec::with_capacity(alloc, MOST_WORDS)?;
    words.extend_from_slice(&[own_low, own_high, next_low, next_high])?;
    Ok(words)
}

// The words of the keys of party 0 and party 1 of a predicate for a share in a run.
fn share(
    alloc: Global,
    query: &Query,
    widths: &Widths,
    seed: &Seed,
    run: u8,
    j: u8,
    k: u8,
) -> Result<(Words, Words), Memory>
    requires run { run < 2 }
    requires place { j < 4 }
    requires share { k < 3 }
    requires legal { IsPredicate widths.now.columns widths.now.bits (predicate_at query.now j) }
    ensures zero { IfOk result (λ w. w.0 ≡ words_of_key (key_at query.now widths.now.bits seed.now Zero run j k)) }
    ensures one { IfOk result (λ w. w.1 ≡ words_of_key (key_at query.now widths.now.bits seed.now One run j k)) }
{
    let predicate = query.predicates[j as usize];
    let bits = widths.bits[predicate.column as usize];
    let roots = roots(seed, run, j, k);
    let (zero, one) = generate(alloc, &predicate, bits, weight(seed, run, j), &roots)?;
    let zero_words = to_words(alloc, &zero)?;
    let one_words = to_words(alloc, &one)?;
    Ok((zero_words, one_words))
}

// Appends two lists.
fn append(to: &mut Vec<u128>, first: &Words, second: &Words) -> Result<(), Memory>
    ensures { OnOk result (to.new.items ≡ to.old.items ++ (first.now ++ second.now)) }
{
    to.extend_from_slice(first.as_slice())?;
    to.extend_from_slice(second.as_slice())?;
    Ok(())
}
