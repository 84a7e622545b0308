//! Queries by the buckets of a column, in order.
ghost use Rattle.std.specs.Prelude.{◌≡◌, ◌==◌, ◌∷◌, ◌++◌, [], OnErr, OnOk, length};

use query_plan::GroupQuery;
use std::alloc::{AllocError, Global};
use std::marker::Model;

/// Queries by the buckets of a column, seen as their list.
#[derive(Debug, Drop)]
pub struct Groups {
    groups: Vec<GroupQuery>,
}

impl Model for Groups {
    ghost use Rattle.std.specs.Prelude.{List};
    ghost use Rattle.query_plan.specs.declared.group.GroupQuery.{GroupQuery};

    ghost Value = { List GroupQuery };

    ghost view = { λ g. g.groups.items };
}

impl Groups {
    /// No queries, which takes no memory.
    pub(crate) fn new(alloc: Global) -> Groups
        ensures { result ≡ [] }
    {
        Groups {
            groups: Vec::new(alloc),
        }
    }

    /// The queries of a list.
    pub fn from_vec(groups: Vec<GroupQuery>) -> Groups
        ensures { result ≡ groups.items }
    {
        Groups { groups }
    }

    /// The list of the queries.
    pub fn into_vec(self) -> Vec<GroupQuery>
        ensures { result.items ≡ self }
    {
        self.groups
    }

    /// Adds one at the end. Out of memory, the list is as before.
    pub(crate) fn push(&mut self, group: GroupQuery) -> Result<(), AllocError>
        ensures added { OnOk result (self.new ≡ self.old ++ group ∷ []) }
        ensures kept { OnErr result (self.new ≡ self.old) }
    {
        self.groups.push(group)?;
        Ok(())
    }

    /// The queries.
    pub fn as_slice(&self) -> &[GroupQuery]
        ensures { result.now ≡ self.now }
    {
        self.groups.as_slice()
    }

    /// How many there are.
    pub fn len(&self) -> usize
        ensures { result ≡ length self.now }
    {
        self.groups.len()
    }

    /// Whether there is none.
    pub fn is_empty(&self) -> bool
        ensures { result ≡ (length self.now == 0) }
    {
        self.groups.is_empty()
    }
}
