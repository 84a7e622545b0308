//! Products of shared numbers. From its shares of two numbers a server makes a part of their product by itself;
//! the parts of three servers add up to the product modulo 2^128. A part of zero is added before a part is sent
//! on, and with the part that it gets a server holds shares of the product again (Araki et al. 2016).
//!
//! It sends nothing, and never picks a counter of zero: which counters are used up is the caller's to know.
//!
//! ```text
//! let own = local_rows(alloc, &a, &b, &zero, start)?;
//! send(previous, &own);
//! let got = receive(next);
//! let product = accept_reshare(own, got);
//! ```
#![tactic(auto)]

pub mod laws;
mod product;

pub use product::{accept_reshare, inner, inner_lent, local, local_rows, locals};
