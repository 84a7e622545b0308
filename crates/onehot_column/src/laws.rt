//! What the definitions say together, as functions without effect.

ghost use Rattle.onehot_column.specs.Laws.{CodeParts, PiecesShare, ValueIsLast};

/// The part of a row's code at a column is the code at that column.
pub fn code_parts()
    ensures { CodeParts }
{}

/// At each column the pieces of a row share the code at that column.
pub fn pieces_share()
    ensures { PiecesShare }
{}

/// The part of a code at the value's column is its last number.
pub fn value_is_last()
    ensures { ValueIsLast }
{}
