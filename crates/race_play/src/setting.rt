//! What a race is run over.
use prg_chacha::Seed;
use query_plan::Query;
use table_schema::{Row, Widths};

/// How many writers, askers and rounds of each asker there are, each 1 to 16; and among how many threads, 1 to 16, each server's rows
/// are shared while a query is answered.
#[derive(Clone, Copy)]
pub struct Crew {
    pub writers: u8,
    pub askers: u8,
    pub rounds: u8,
    pub workers: u8,
}

/// What a race is run over: input rows of these widths, at most as many as a table takes; 1 to 16 queries that are legal over the
/// widths; the master seed, from which the seeds of rows and queries are derived; and by whom. Of W writers, writer w has the rows i
/// with `i mod W = w`, in order. An asker's round r asks query `r mod Q` of Q.
#[derive(Clone, Copy)]
pub struct Race<'a> {
    pub widths: Widths,
    pub rows: &'a [Row],
    pub queries: &'a [Query],
    pub master: Seed,
    pub crew: Crew,
}
