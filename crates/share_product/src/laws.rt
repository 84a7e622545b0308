//! What the definitions say together, as functions without effect.

ghost use Rattle.share_product.specs.Laws.{LocalsAddUp, RowsAddUp, InnersAddUp, InnersJoin, ReshareShares};

/// The parts of a product add up to it.
pub fn locals_add_up()
    ensures { LocalsAddUp }
{}

/// The parts of the products of two lists, with their parts of zero, add up to the products.
pub fn rows_add_up()
    ensures { RowsAddUp }
{}

/// The parts of a dot product add up to it.
pub fn inners_add_up()
    ensures { InnersAddUp }
{}

/// A part of the dot product of lists that are joined is the sum of the parts for each of them.
pub fn inners_join()
    ensures { InnersJoin }
{}

/// Three lists of parts, each held by its server and by the one before, are shares of their sum.
pub fn reshare_shares()
    ensures { ReshareShares }
{}
