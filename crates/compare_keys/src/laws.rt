//! What comparison keys of any roots do, as functions without effect.

ghost use Rattle.compare_keys.specs.Laws.{KeysAddUp, WordsReadBack};

/// The values of the two keys add up to the weight at each number that is at most the end, and to 0 elsewhere.
pub fn keys_add_up()
    ensures { KeysAddUp }
{}

/// A key's words give the key again, where its roots have eight words below 2^32.
pub fn words_read_back()
    ensures { WordsReadBack }
{}
