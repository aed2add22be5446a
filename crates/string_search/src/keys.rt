// The lent keys of the string map, data offset · 2^32 + index of each string (string_locator.rs): which a search takes.
ghost use Rattle.std.specs.Prelude.{◌≡◌};
ghost use Rattle.string_search.specs.Keys.{good_keys};

// A key is the data offset times this, 2^32, plus the index.
pub(crate) const INDEX_SPAN: u64 = 4294967296;

// The greatest index, which no string has.
const NO_INDEX: u64 = 4294967295;

// Whether the keys rise strictly and none has the index 2^32 - 1.
pub(crate) fn keys_good(keys: &[u64]) -> bool
    ensures { result ≡ good_keys keys.now }
{
    let mut least: u64 = 0;
    for key in keys {
        let k = *key;
        if k < least || k % INDEX_SPAN == NO_INDEX {
            return false;
        }
        least = k + 1;
    }
    true
}
