ghost use Rattle.std.specs.Prelude.{◌≡◌};
ghost use Rattle.text_reading.specs.Reading.{Gives};
ghost use Rattle.table_schema.specs.Schema.{has_name, schema_of};
ghost use Rattle.table_schema.specs.declared.faults.SchemaFault.TheVariants as fault;

use crate::faults::SchemaFault;
use crate::names::Name;
use crate::pieces::parts;
use crate::schema::{Column, MOST_COLUMNS, Schema};
use std::alloc::Global;
use text_reading::{count_pieces, cut};

// Whether a column has the name.
fn is_taken(name: &[u8], columns: &[Column]) -> bool
    ensures { result ≡ has_name name.now columns.now }
{
    for column in columns {
        if column.name.as_bytes() == name {
            return true;
        }
    }
    false
}

/// The columns that a text describes, or its first fault. The text is cut at each comma, and each piece is
/// `name:bits`, then `@start` and `/step` where they are not 0 and 1, as `time:8@1700000000/3600`.
#[tactic(auto, using(crate::proofs::SchemaLaws::many_pieces, crate::proofs::SchemaLaws::few_pieces, crate::proofs::SchemaLaws::none_left, crate::proofs::SchemaLaws::bad_piece, text_reading::proofs::CutLaws::some_piece, text_reading::proofs::CutLaws::pieces_fewer))]
pub fn read_schema(alloc: Global, text: &str) -> Result<Schema, SchemaFault>
    ensures { Gives fault.Memory (λ schema. schema) result (schema_of text.now) }
{
    let bytes = text.as_bytes();
    let had = count_pieces(bytes, b',');
    if had > MOST_COLUMNS {
        return Err(SchemaFault::Count { had: had as u64 });
    }
    let mut columns = Vec::with_capacity(alloc, had)?;
    let mut rest = Some(bytes);
    while let Some(bytes) = rest {
        let (piece, more) = cut(bytes, b',');
        let index = columns.len() as u8;
        let (name, bits, start, step) = match parts(piece) {
            Ok(parts) => parts,
            Err(why) => return Err(SchemaFault::Column { index, why }),
        };
        if is_taken(name, &columns) {
            return Err(SchemaFault::Repeated { index });
        }
        let name = Name::from_bytes(alloc, name)?;
        columns.push(Column {
            name,
            bits,
            start,
            step,
        })?;
        rest = more;
    }
    Ok(Schema { columns })
}
