//! What the messages of a query are, and what they open: the definitions that every layer above cites, and laws over them.
//! A query of P predicates has 3 + 12 P messages. The client sends three key messages; then, in run 0 and again in run 1,
//! the servers send the bits of each predicate, the product of the bits so far with each further predicate's, and last the
//! openings, three messages a step. The words of each message are a formula of what its sender received earlier in the list
//! and of the pieces of rows that it holds. Replicated shares and their products are those of Araki et al. 2016.
//!
//! It has no code that runs: a caller shows that it appended a transcript, and the laws say what the client then opens.
//!
//! ```text
//! // In `specs/`: a wire that was not altered carried a query over servers that hold rows.
//! asked : Asks setup question weights rows      -- its keys and its pieces
//! said : IsTranscript setup messages            -- what the code appended
//! kept : IsHonest messages                      -- the wire's count did not rise
//! -- `pair_opens` then gives the total and the weighted total.
//! opened_of setup messages 0 ≡ word_of (plain question rows)
//! opened_of setup messages 1 ≡ times (key_of (weights 1) count) (word_of (plain question rows))
//! ```
#![tactic(auto)]

pub mod laws;
