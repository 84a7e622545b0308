//! What interval keys of any roots do, as functions without effect.

ghost use Rattle.interval_keys.specs.Laws.{KeysAddUp, WordsReadBack};

/// The values of the two keys add up to the weight from the low end to the high end, and to 0 elsewhere.
pub fn keys_add_up()
    ensures { KeysAddUp }
{
    compare_keys::laws::keys_add_up();
}

/// A key's words give the key again, where its roots have eight words below 2^32.
pub fn words_read_back()
    ensures { WordsReadBack }
{
    compare_keys::laws::words_read_back();
}
