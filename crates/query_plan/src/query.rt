ghost use Rattle.std.specs.Prelude.{◌≡◌, ◌↔◌, ◌<◌, IsTrue};
ghost use Rattle.query_plan.specs.Query.{IsPredicate, IsPlaced, Suits, no_predicate, part_of, shaped};

use crate::predicate::is_taken;
use table_schema::{Aggregate, Kind, Part, Shape, Widths};

/// The most predicates of a query.
pub(crate) const MOST_PREDICATES: usize = 4;

/// A test of one column, from 0: that its bucket is from low to high. A point has low and high alike, and
/// "at most" has low 0.
#[derive(Clone, Copy, Debug, PartialEq, Eq)]
pub struct Predicate {
    pub column: u8,
    pub kind: Kind,
    pub low: u8,
    pub high: u8,
}

/// A query: what it asks for, and 1 to 4 predicates, which a row has to pass all. Those past the count are
/// blank: all 0, and Point.
#[derive(Clone, Copy, Debug)]
pub struct Query {
    pub aggregate: Aggregate,
    pub count: u8,
    pub predicates: [Predicate; 4],
}

/// Why a piece of a query's text is no predicate: it has not the form of one, no column has the name, an
/// earlier predicate has the column, a number has no bucket there, or an interval's first number is greater
/// than its last.
#[derive(Clone, Copy, Debug, PartialEq, Eq)]
pub enum QueryWhy {
    Form,
    Unknown,
    Repeated,
    Domain,
    Order,
}

/// Why a text is no query: its first word, the number of predicates, or the first of them that is refused.
#[derive(Clone, Copy, Debug, PartialEq, Eq)]
pub enum QueryFault {
    Aggregate,
    Count { had: u64 },
    Predicate { index: u8, why: QueryWhy },
}

/// What stands where there is no predicate.
pub(crate) const NO_PREDICATE: Predicate = Predicate {
    column: 0,
    kind: Kind::Point,
    low: 0,
    high: 0,
};

impl Predicate {
    // What is not secret of it.
    fn part(self) -> Part
        ensures { result ≡ part_of self }
    {
        Part {
            column: self.column,
            kind: self.kind,
        }
    }

    // Whether the predicate is one over these widths: its column is there, its buckets too, and they are in order.
    fn suits(&self, widths: &Widths) -> bool
        ensures { IsTrue result ↔ IsPredicate widths.now.columns widths.now.bits self.now }
    {
        if self.column >= widths.columns {
            return false;
        }
        if u16::from(self.high) >= 1u16 << widths.bits[self.column as usize] {
            return false;
        }
        match self.kind {
            Kind::Point => self.low == self.high,
            Kind::AtMost => self.low == 0,
            Kind::Interval => self.low <= self.high,
        }
    }
}

impl Query {
    /// Whether the query is legal over these widths: 1 to 4 predicates, each on a column of its own and within
    /// its buckets, and blank ones past them.
    pub fn suits(&self, widths: &Widths) -> bool
        ensures { IsTrue result ↔ Suits widths.now.columns widths.now.bits self.now }
    {
        if self.count < 1 || self.count > 4 {
            return false;
        }
        for i in 0..MOST_PREDICATES {
            if !self.is_placed(widths, i) {
                return false;
            }
        }
        true
    }

    // Whether what stands at a place is right there.
    fn is_placed(&self, widths: &Widths, i: usize) -> bool
        requires { i < 4 }
        ensures { IsTrue result ↔ IsPlaced widths.now.columns widths.now.bits self.now i }
    {
        let predicate = self.predicates[i];
        if i < self.count as usize {
            predicate.suits(widths) && !is_taken(predicate.column, &self.predicates[..i])
        } else {
            predicate == NO_PREDICATE
        }
    }
}

/// What is not secret of a query: what it asks for, how many predicates it has, and their columns and kinds.
pub fn shape_of(query: &Query) -> Shape
    ensures { result ≡ shaped query.now }
{
    let [first, second, third, fourth] = query.predicates;
    Shape {
        aggregate: query.aggregate,
        count: query.count,
        parts: [first.part(), second.part(), third.part(), fourth.part()],
    }
}
