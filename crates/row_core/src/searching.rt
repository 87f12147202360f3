//! Looking up what entries that ascend by a key have at a key.

ghost use Rattle.std.specs.Prelude.{◌≡◌, IsTrue};
ghost use Rattle.row_core.specs.LookUps.{value_at};
ghost use Rattle.row_core.specs.Numbers.{keys_of, ascends};

/// What stands at a key, found by binary search.
pub fn look_up<K: Ord + Copy, T: Copy>(entries: &[(K, T)], key: K) -> Option<T>
    requires { IsTrue (ascends K.cmp (keys_of entries.now)) }
    ensures { result ≡ value_at K.cmp entries.now key }
{
    match entries.binary_search_by_key(&key, |entry| entry.0) {
        Ok(at) => Some(entries[at].1),
        Err(_) => None,
    }
}
