//! One line of a report.
ghost use Rattle.std.specs.Prelude.{◌≡◌, Some};
ghost use Rattle.report_lines.specs.Line.{aggregate_text, line_text, who_text, why_text};

use crate::names::NameText;
use std::fmt;
use table_schema::Aggregate;

/// Why a record of the input is no row, in the order in which the causes are looked for.
#[derive(Clone, Copy, Debug, PartialEq, Eq)]
pub enum RowWhy {
    /// It has not one field more than there are columns.
    Fields,
    /// A field is not UTF-8.
    Text,
    /// A field is no number.
    Number,
    /// A number has no bucket in its column.
    Domain,
    /// The last field has a size above the greatest value.
    Value,
}

/// Whose answer a line gives: the query with this index, from 0; an actor's or an asker's round, both from
/// 0; or the query with this index, asked once all else has ended.
#[derive(Clone, Copy, Debug, PartialEq, Eq)]
pub enum Who {
    Single(u64),
    Round { actor: u8, round: u64 },
    End(u64),
}

/// A line of a report.
#[derive(Drop)]
pub enum Line {
    /// The count or sum over the first `rows` rows. A sum may be negative.
    Answer {
        who: Who,
        rows: u64,
        aggregate: Aggregate,
        total: i64,
    },
    /// The check refused the opened total and weighted total.
    Altered {
        who: Who,
        rows: u64,
        total: u128,
        weighted: u128,
    },
    /// A server had fewer rows than the caller had seen.
    Again {
        who: Who,
        server: u8,
        had: u64,
        floor: u64,
    },
    /// An actor drew a place.
    Draw {
        actor: u8,
        place: u64,
    },
    /// An actor saw how many of the first places a server has.
    Look {
        actor: u8,
        server: u8,
        prefix: u64,
    },
    /// How many rows there are.
    Rows {
        count: u64,
    },
    /// Which input row, from 0, has a place.
    Place {
        place: u64,
        row: u64,
    },
    /// What a writer saw after its rows.
    Back {
        writer: u8,
        rows: u64,
    },
    /// A server had fewer rows than a writer had seen.
    BackAgain {
        writer: u8,
        server: u8,
        had: u64,
        floor: u64,
    },
    /// The number of visits and of words at a server, for the query with this index.
    Trace {
        index: u64,
        server: u8,
        visits: u64,
        words: u64,
    },
    /// How many of the rows at the places from `low` to `high` - 1 pass, and the number of nodes of a tree that the range is cut into.
    Tree {
        low: u64,
        high: u64,
        total: i64,
        nodes: u64,
    },
    /// The check refused the total and weighted total that were opened for a range of places.
    TreeAltered {
        total: u128,
        weighted: u128,
    },
    /// The count or sum, which may be negative, over those of `rows` rows that have a bucket, of the query by the buckets of a column with
    /// this index.
    Group {
        index: u64,
        bucket: u8,
        rows: u64,
        aggregate: Aggregate,
        total: i64,
    },
    /// The check refused the total and weighted total that such a query opened for a bucket.
    GroupAltered {
        index: u64,
        bucket: u8,
        total: u128,
        weighted: u128,
    },
    /// The command word with this index, from 0, is refused.
    BadWord {
        index: u64,
    },
    /// A command word is missing.
    Missing {
        name: NameText,
    },
    /// The step with this index, from 0, is not allowed.
    BadStep {
        index: u64,
    },
    /// The input could not be read.
    ReadFault,
    /// The input is longer than is read.
    TooLong,
    /// The first record of the input is no header.
    Header,
    /// The record with this number, from 1 after the header, is no row.
    BadRecord {
        number: u64,
        why: RowWhy,
    },
    /// There are more rows than the table has room for.
    TooMany {
        capacity: u32,
    },
    /// There are fewer rows than a range of places asks for.
    TooFew {
        wanted: u64,
    },
}

impl fmt::Display for RowWhy {
    ghost output = { λ why. Some (why_text why) };

    fn fmt<W: fmt::Write>(&self, f: &mut fmt::Formatter<W>) -> fmt::Result {
        match self {
            RowWhy::Fields => write!(f, "Fields"),
            RowWhy::Text => write!(f, "Text"),
            RowWhy::Number => write!(f, "Number"),
            RowWhy::Domain => write!(f, "Domain"),
            RowWhy::Value => write!(f, "Value"),
        }
    }
}

impl fmt::Display for Who {
    ghost output = { λ who. Some (who_text who) };

    fn fmt<W: fmt::Write>(&self, f: &mut fmt::Formatter<W>) -> fmt::Result {
        match self {
            Who::Single(index) => write!(f, "ask {index}"),
            Who::Round { actor, round } => write!(f, "ask {actor}.{round}"),
            Who::End(index) => write!(f, "end {index}"),
        }
    }
}

// What a server had, and what it should have had.
#[derive(Clone, Copy)]
struct Gap {
    server: u8,
    had: u64,
    floor: u64,
}

impl fmt::Display for Gap {
    ghost use Rattle.report_lines.specs.Line.{gap_text};

    ghost output = { λ gap. Some (gap_text gap.server gap.had gap.floor) };

    fn fmt<W: fmt::Write>(&self, f: &mut fmt::Formatter<W>) -> fmt::Result {
        write!(
            f,
            "again server {} had {} floor {}",
            self.server, self.had, self.floor
        )
    }
}

// What a server had after a writer's rows, and what it should have had.
#[derive(Clone, Copy)]
struct BackGap {
    writer: u8,
    gap: Gap,
}

impl fmt::Display for BackGap {
    ghost use Rattle.report_lines.specs.Line.{back_gap_text};

    ghost output = { λ back. Some (back_gap_text back.writer back.gap.server back.gap.had back.gap.floor) };

    fn fmt<W: fmt::Write>(&self, f: &mut fmt::Formatter<W>) -> fmt::Result {
        write!(f, "back {} {}", self.writer, self.gap)
    }
}

// A bucket of a query by the buckets of a column.
#[derive(Clone, Copy)]
struct Bucket {
    index: u64,
    bucket: u8,
}

impl fmt::Display for Bucket {
    ghost use Rattle.report_lines.specs.Line.{bucket_text};

    ghost output = { λ b. Some (bucket_text b.index b.bucket) };

    fn fmt<W: fmt::Write>(&self, f: &mut fmt::Formatter<W>) -> fmt::Result {
        write!(f, "group {} bucket {}", self.index, self.bucket)
    }
}

// A total and a weighted total that the check refused.
#[derive(Clone, Copy)]
struct Refused {
    total: u128,
    weighted: u128,
}

impl fmt::Display for Refused {
    ghost use Rattle.report_lines.specs.Line.{refused_text};

    ghost output = { λ pair. Some (refused_text pair.total pair.weighted) };

    fn fmt<W: fmt::Write>(&self, f: &mut fmt::Formatter<W>) -> fmt::Result {
        write!(f, "altered total {} weighted {}", self.total, self.weighted)
    }
}

// The word for what was asked.
fn name_of(aggregate: &Aggregate) -> &'static str
    ensures { result.now ≡ aggregate_text aggregate.now }
{
    match aggregate {
        Aggregate::Count => "count",
        Aggregate::Sum => "sum",
    }
}

impl fmt::Display for Line {
    ghost output = { λ line. Some (line_text line) };

    fn fmt<W: fmt::Write>(&self, f: &mut fmt::Formatter<W>) -> fmt::Result {
        match self {
            Line::Answer {
                who,
                rows,
                aggregate,
                total,
            } => { write!(f, "{who} rows {rows} {} {total}", name_of(aggregate)) }
            Line::Altered {
                who,
                rows,
                total,
                weighted,
            } => {
                let pair = Refused {
                    total: *total,
                    weighted: *weighted,
                };
                write!(f, "{who} rows {rows} {pair}")
            }
            Line::Again {
                who,
                server,
                had,
                floor,
            } => {
                let gap = Gap {
                    server: *server,
                    had: *had,
                    floor: *floor,
                };
                write!(f, "{who} {gap}")
            }
            Line::Draw { actor, place } => write!(f, "draw {actor} place {place}"),
            Line::Look {
                actor,
                server,
                prefix,
            } => { write!(f, "look {actor} server {server} prefix {prefix}") }
            Line::Rows { count } => write!(f, "rows {count}"),
            Line::Place { place, row } => write!(f, "place {place} row {row}"),
            Line::Back { writer, rows } => write!(f, "back {writer} rows {rows}"),
            Line::BackAgain {
                writer,
                server,
                had,
                floor,
            } => {
                let gap = Gap {
                    server: *server,
                    had: *had,
                    floor: *floor,
                };
                write!(
                    f,
                    "{}",
                    BackGap {
                        writer: *writer,
                        gap
                    }
                )
            }
            Line::Trace {
                index,
                server,
                visits,
                words,
            } => {
                write!(
                    f,
                    "trace {index} server {server} visits {visits} words {words}"
                )
            }
            Line::Tree {
                low,
                high,
                total,
                nodes,
            } => {
                write!(
                    f,
                    "tree 0 places {low} to {high} count {total} nodes {nodes}"
                )
            }
            Line::TreeAltered { total, weighted } => {
                let pair = Refused {
                    total: *total,
                    weighted: *weighted,
                };
                write!(f, "tree 0 {pair}")
            }
            Line::Group {
                index,
                bucket,
                rows,
                aggregate,
                total,
            } => {
                let bucket = Bucket {
                    index: *index,
                    bucket: *bucket,
                };
                write!(f, "{bucket} rows {rows} {} {total}", name_of(aggregate))
            }
            Line::GroupAltered {
                index,
                bucket,
                total,
                weighted,
            } => {
                let bucket = Bucket {
                    index: *index,
                    bucket: *bucket,
                };
                let pair = Refused {
                    total: *total,
                    weighted: *weighted,
                };
                write!(f, "{bucket} {pair}")
            }
            Line::BadWord { index } => write!(f, "waldo: bad word {index}"),
            Line::Missing { name } => write!(f, "waldo: missing {}", name.as_str()),
            Line::BadStep { index } => write!(f, "waldo: step {index} not allowed"),
            Line::ReadFault => write!(f, "waldo: read fault"),
            Line::TooLong => write!(f, "waldo: input too long"),
            Line::Header => write!(f, "waldo: header"),
            Line::BadRecord { number, why } => write!(f, "waldo: record {number} {why}"),
            Line::TooMany { capacity } => write!(f, "waldo: more rows than {capacity}"),
            Line::TooFew { wanted } => write!(f, "waldo: fewer rows than {wanted}"),
        }
    }
}
