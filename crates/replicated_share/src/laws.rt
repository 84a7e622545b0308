//! What the definitions say together, as functions without effect.

ghost use Rattle.replicated_share.specs.Laws.{SplitShares, SharesReveal, PartsShare, AppendedShare, AddedReveals, ScaledReveals};

/// The shares of a split list, two at each server, are shares of the list.
pub fn split_shares()
    ensures { SplitShares }
{}

/// Shares of a list reveal it, place by place.
pub fn shares_reveal()
    ensures { SharesReveal }
{}

/// A part of shares is shares of the part.
pub fn parts_share()
    ensures { PartsShare }
{}

/// Shares of two lists, one after the other, are shares of the lists one after the other.
pub fn appended_share()
    ensures { AppendedShare }
{}

/// The sums of pairs reveal the sum.
pub fn added_reveals()
    ensures { AddedReveals }
{}

/// The scaled pairs reveal the product with the factor.
pub fn scaled_reveals()
    ensures { ScaledReveals }
{}
