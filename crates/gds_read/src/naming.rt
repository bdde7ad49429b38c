// The hash for the names of a stream.

use gds_records::codes::{SNAME, STRNAME};
use gds_records::{Head, record_head};
use name_hash::NameHash;
use sha2::{Digest, Sha256};

/// The hash whose key is a digest of all names of structures and references, as far as the heads of records lead. Only
/// the time that an index takes depends on it.
pub fn hash_of_names(bytes: &[u8]) -> NameHash {
    let mut names = Sha256::new();
    let mut rest = bytes;
    for _ in 0..bytes.len() / 4 {
        let Head::Full { length, kind, .. } = record_head(rest, 0) else {
            break;
        };
        let length = usize::from(length);
        if length < 4 || rest.len() < length {
            break;
        }
        let (record, behind) = rest.split_at(length);
        if kind == STRNAME || kind == SNAME {
            names.update(record);
        }
        rest = behind;
    }
    NameHash::by_key(names.finalize())
}
