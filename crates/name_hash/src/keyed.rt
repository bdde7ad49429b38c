// The keyed hash of names.

use sha2::{Digest, Sha256};
use std::hash::{BuildHasher, DefaultHasher, Hasher};

/// Makes the hashers of the names of one text: SipHash-1-3, which has read the text's key before each name. The same
/// key gives the same hashes, so a run does not depend on chance.
#[derive(Clone, Copy)]
pub struct NameHash {
    start: DefaultHasher,
}

impl NameHash {
    ghost use Rattle.std.specs.Prelude.{◌≡◌};
    ghost use Rattle.sha2.specs.Sha256.{sha256};
    ghost use Rattle.name_hash.specs.Keys.{keyed_by};

    /// The hash whose key is the SHA-256 digest of these bytes: the text that the names stand in, or all of its names.
    /// Nothing that is answered depends on the key, but for the time that an index takes.
    pub fn of(bytes: &[u8]) -> Self
        ensures { result ≡ keyed_by (sha256 bytes.now) }
    {
        NameHash::by_key(Sha256::digest(bytes))
    }

    /// The hash of a key, which is to be a digest of all names.
    pub fn by_key(key: [u8; 32]) -> Self
        ensures { result ≡ keyed_by key }
    {
        let mut start = DefaultHasher::new();
        start.write(&key);
        NameHash { start }
    }
}

impl BuildHasher for NameHash {
    type Hasher = DefaultHasher;

    ghost build_hasher = { λ hash. hash.start };

    fn build_hasher(&self) -> DefaultHasher {
        self.start
    }
}
