//! Values that are compared and hashed.
use std::hash::{DefaultHasher, Hash, Hasher};

fn hash_of<T: Hash>(value: &T) -> u64 {
    let mut state = DefaultHasher::new();
    value.hash(&mut state);
    state.finish()
}

/// Whether the first two are the same value, and the third is another.
pub fn are_reported_apart<T: Eq + Hash>(one: &T, same: &T, other: &T) -> bool {
    *one == *same && hash_of(one) == hash_of(same) && *one != *other
}
