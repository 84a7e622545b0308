//! Rows as lists of numbers that can be shared. The code of a row has for each column a number for each bucket,
//! 1 at the row's bucket and 0 elsewhere, and then the row's value modulo 2^128; a server's piece of a row is its
//! two shares of the code.
//!
//! It keeps no row and no code: what a caller holds on to is the pieces, 32 bytes a number at each server.
//!
//! ```text
//! let pieces = pieces(alloc, &widths, &row, &seed)?;
//! let (first, second) = pieces.zero.column(&widths, 0);
//! let value = reveal(pieces.zero.value(), pieces.one.value(), pieces.two.value());
//! ```
#![tactic(auto)]

mod coding;
pub mod laws;
mod piece;

pub use coding::code;
pub use piece::{Piece, RowPieces, pieces};
