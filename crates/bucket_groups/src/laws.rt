//! Laws of the definitions, as functions without effect: the clause of each is the law.

ghost use Rattle.std.specs.Prelude.{◌≡◌, ◌≢◌, ◌⊎◌, ◌<◌, ◌%◌, length, slice_index};
ghost use Rattle.weighted_check.specs.Shifts.{shifted_total, shifted_weighted};
ghost use Rattle.bucket_groups.specs.Check.{answer_at, answers_of};
ghost use Rattle.bucket_groups.specs.declared.check.GroupAnswer.TheVariants.{Altered};
ghost use Rattle.bucket_groups.specs.Laws.{BucketsSeeColumns, GroupsOpen, GroupPairsOpen};

use weighted_check::laws::one_shift;

/// Where nothing was altered and the servers hold rows, a run opens, bucket by bucket, its key times the plain answer.
pub fn groups_open()
    ensures { GroupsOpen }
{}

/// The same for both runs, where the weights of run 0 are 1.
pub fn group_pairs_open()
    ensures { GroupPairsOpen }
{}

/// The end of a run by buckets rests on the pieces at the table's columns alone.
pub fn buckets_see_columns()
    ensures { BucketsSeeColumns }
{}

/// Where exactly one of the two numbers that a bucket opened was shifted, its total by `d` or its weighted total by `e`, the check
/// refuses this bucket. Every other bucket is answered by its own pair, whatever this one's is.
pub fn one_bucket_refused(
    total: &[u128],
    weighted: &[u128],
    bucket: usize,
    plain: i64,
    d: u128,
    e: u128,
    key: u128,
)
    requires odd { key % 2 ≡ 1 }
    requires one { ((d ≢ 0) × (e ≡ 0)) ⊎ ((d ≡ 0) × (e ≢ 0)) }
    requires there { bucket < length total.now }
    requires total { slice_index total.now bucket ≡ shifted_total plain d }
    requires weighted { slice_index weighted.now bucket ≡ shifted_weighted key plain e }
    ensures { answer_at (answers_of total.now weighted.now key) bucket
        ≡ Altered (slice_index total.now bucket) (slice_index weighted.now bucket) }
{
    one_shift(plain, d, e, key);
}
