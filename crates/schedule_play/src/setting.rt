use prg_chacha::Seed;
use query_plan::Query;
use table_schema::{Row, Widths};

/// What steps run over: rows of these widths, queries that are legal over them, the master seed from which the seeds of
/// rows and queries are derived, and how many workers scan, from 1 to 16.
#[derive(Clone, Copy)]
pub struct Setting<'a> {
    pub widths: Widths,
    pub rows: &'a [Row],
    pub queries: &'a [Query],
    pub master: Seed,
    pub workers: u8,
}
