use std::hash::{BuildHasher, DefaultHasher, Hash};
use yaml_lines::Forest;

/// Makes the hashers of all indexes of one resolve. They begin with all keys of all files, so that
/// nobody can choose keys that collide: each choice changes the hash.
#[derive(Clone, Copy)]
pub struct Hashers {
    begun: DefaultHasher,
}

impl BuildHasher for Hashers {
    type Hasher = DefaultHasher;

    ghost build_hasher = { λ hashers. hashers.begun };

    fn build_hasher(&self) -> DefaultHasher {
        self.begun
    }
}

impl Hashers {
    /// The hashers for the keys of some files.
    pub fn of(files: &[Forest]) -> Hashers {
        let mut begun = DefaultHasher::new();
        for file in files {
            hash_keys(&mut begun, file);
        }
        Hashers { begun }
    }

    /// The hashers for the keys of one file.
    pub fn of_one(file: &Forest) -> Hashers {
        let mut begun = DefaultHasher::new();
        hash_keys(&mut begun, file);
        Hashers { begun }
    }
}

/// Hashes the keys of a list and of all lists below it.
fn hash_keys(state: &mut DefaultHasher, list: &Forest) {
    for node in &list.nodes {
        node.key.hash(state);
        hash_keys(state, &node.children);
    }
}
