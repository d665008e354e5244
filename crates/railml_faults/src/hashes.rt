// What ids are hashed by.
use crate::ids::own_id;
use railml_read::Elem;
use std::hash::{BuildHasher, DefaultHasher, Hash, Hasher};

/// Makes hashers that begin with a number which depends on all ids of a file. The number isn't known before the last
/// id is, so ids can't be chosen to have one hash, as they can where each hasher begins with one fixed number.
#[derive(Clone, Copy)]
pub(crate) struct IdHashes {
    begun: DefaultHasher,
}

impl IdHashes {
    /// By the ids of these rows.
    pub(crate) fn of(rows: &[Elem]) -> Self {
        let mut all = DefaultHasher::new();
        for row in rows {
            if let Some(id) = own_id(row) {
                id.hash(&mut all);
            }
        }
        let mut begun = DefaultHasher::new();
        begun.write_u64(all.finish());
        IdHashes { begun }
    }
}

impl BuildHasher for IdHashes {
    type Hasher = DefaultHasher;

    ghost build_hasher = { λ hashes. hashes.begun };

    fn build_hasher(&self) -> DefaultHasher {
        self.begun
    }
}
