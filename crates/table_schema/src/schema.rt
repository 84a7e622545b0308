ghost use Rattle.std.specs.Prelude.{◌≡◌, ◌<◌, Some, length, map, slice_get};
ghost use Rattle.table_schema.specs.Column.{AreColumns, bucket_at};
ghost use Rattle.table_schema.specs.Widths.{column_bits};

use crate::names::Name;
use crate::widths::Widths;
use std::marker::Model;

/// The most columns of a table.
pub(crate) const MOST_COLUMNS: usize = 6;

/// A column: its name, how many bits its bucket has (1 to 8), the raw number at which bucket 0 starts, and
/// how many raw numbers a bucket holds (at least 1).
#[derive(Debug, Drop)]
pub struct Column {
    pub name: Name,
    pub bits: u8,
    pub start: u64,
    pub step: u64,
}

/// The columns of a table, 1 to 6 of them, seen as their list.
#[derive(Debug, Drop)]
pub struct Schema {
    pub(crate) columns: Vec<Column>,
}

impl Model for Schema {
    ghost use Rattle.std.specs.Prelude.{List};
    ghost use Rattle.table_schema.specs.declared.schema.Column.{Column};
    ghost use Rattle.table_schema.specs.Column.{AreColumns};

    ghost Value = { List Column };

    ghost view = { λ a. a.columns.items };

    ghost invariant = { λ a. AreColumns a.columns.items };
}

impl Schema {
    /// How many bits each column has.
    pub fn widths(&self) -> Widths
        ensures columns { result.columns ≡ length self.now }
        ensures bits { column_bits result ≡ map (λ c. c.bits) self.now }
    {
        let mut bits = [0; 6];
        for (i, column) in self.columns.iter().enumerate() {
            bits[i] = column.bits;
        }
        Widths {
            columns: self.columns.len() as u8,
            bits,
        }
    }

    /// How many columns there are, and with that what a caller may rely on: there is at least one.
    pub fn count(&self) -> u8
        ensures value { result ≡ length self.now }
        ensures columns { AreColumns self.now }
    {
        self.columns.len() as u8
    }

    /// A column by its place, from 0.
    pub fn column(&self, c: u8) -> &Column
        requires { c < length self.now }
        ensures { slice_get self.now c ≡ Some result.now }
    {
        &self.columns[c as usize]
    }

    /// The bucket of a raw number in the column with this place: how many whole steps it is above the
    /// start. None where it is below the start, or that number does not fit the column's bits.
    #[tactic(auto, using(crate::proofs::BucketLaws::bucket_read, crate::proofs::BucketLaws::below, crate::proofs::BucketLaws::inside, crate::proofs::BucketLaws::past))]
    pub fn bucket(&self, c: u8, raw: u64) -> Option<u8>
        requires { c < length self.now }
        ensures { result ≡ bucket_at self.now c raw }
    {
        let column = &self.columns[c as usize];
        if raw < column.start {
            return None;
        }
        let bucket = (raw - column.start) / column.step;
        if bucket < 1u64 << column.bits {
            Some(bucket as u8)
        } else {
            None
        }
    }
}
