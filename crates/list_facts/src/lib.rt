//! Facts about lists that several crates cite: lists made place by place, sums over lists, how often a
//! number stands in a list, and beginnings of one list. It holds definitions and lemmas alone, and no
//! function of it runs.
//!
//! A contract above cites a definition and its proof a lemma:
//!
//! ```text
//! ghost use Rattle.list_facts.specs.Listed.{listed};
//!
//! fn squares(n: usize, to: &mut [u128])
//!     ensures { to.new ≡ listed (length to.old) (λ i. i * i) }
//!
//! // in its answers: listed_is of Rattle.list_facts.proofs.Listed, given each place of the list
//! ```
#![tactic(auto)]
