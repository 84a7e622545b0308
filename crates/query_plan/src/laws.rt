//! What the definitions of keys say together, as functions without effect.

ghost use Rattle.query_plan.specs.Laws.{KeysAddUp, KeysAreOdd, MessagesAreLong};

/// The three servers read the keys of the query from their key messages: at every bucket of each predicate's column
/// the two values of a key pair add up to the predicate's weight inside and to 0 elsewhere.
pub fn keys_add_up()
    ensures { KeysAddUp }
{
    key_tree::laws::derived_are_seeds();
    point_keys::laws::keys_add_up();
    point_keys::laws::words_read_back();
    compare_keys::laws::keys_add_up();
    compare_keys::laws::words_read_back();
    interval_keys::laws::keys_add_up();
    interval_keys::laws::words_read_back();
}

/// Each key message has the words that the query's shape asks for.
pub fn messages_are_long()
    ensures { MessagesAreLong }
{
    key_tree::laws::derived_are_seeds();
    point_keys::laws::keys_add_up();
    point_keys::laws::words_read_back();
    compare_keys::laws::keys_add_up();
    compare_keys::laws::words_read_back();
    interval_keys::laws::keys_add_up();
    interval_keys::laws::words_read_back();
}

/// The key is odd.
pub fn keys_are_odd()
    ensures { KeysAreOdd }
{}
