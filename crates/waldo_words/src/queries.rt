//! Queries in order.
ghost use Rattle.std.specs.Prelude.{◌≡◌, ◌==◌, ◌∷◌, ◌++◌, [], OnErr, OnOk, length};

use query_plan::Query;
use std::alloc::{AllocError, Global};
use std::marker::Model;

/// Queries, seen as their list.
#[derive(Debug, Drop)]
pub struct Queries {
    queries: Vec<Query>,
}

impl Model for Queries {
    ghost use Rattle.std.specs.Prelude.{List};
    ghost use Rattle.query_plan.specs.declared.query.Query.{Query};

    ghost Value = { List Query };

    ghost view = { λ q. q.queries.items };
}

impl Queries {
    /// No queries, which takes no memory.
    pub(crate) fn new(alloc: Global) -> Queries
        ensures { result ≡ [] }
    {
        Queries {
            queries: Vec::new(alloc),
        }
    }

    /// The queries of a list.
    pub fn from_vec(queries: Vec<Query>) -> Queries
        ensures { result ≡ queries.items }
    {
        Queries { queries }
    }

    /// The list of the queries.
    pub fn into_vec(self) -> Vec<Query>
        ensures { result.items ≡ self }
    {
        self.queries
    }

    /// Adds one at the end. Out of memory, the list is as before.
    pub(crate) fn push(&mut self, query: Query) -> Result<(), AllocError>
        ensures added { OnOk result (self.new ≡ self.old ++ query ∷ []) }
        ensures kept { OnErr result (self.new ≡ self.old) }
    {
        self.queries.push(query)?;
        Ok(())
    }

    /// The queries.
    pub fn as_slice(&self) -> &[Query]
        ensures { result.now ≡ self.now }
    {
        self.queries.as_slice()
    }

    /// How many there are.
    pub fn len(&self) -> usize
        ensures { result ≡ length self.now }
    {
        self.queries.len()
    }

    /// Whether there is none.
    pub fn is_empty(&self) -> bool
        ensures { result ≡ (length self.now == 0) }
    {
        self.queries.is_empty()
    }
}
