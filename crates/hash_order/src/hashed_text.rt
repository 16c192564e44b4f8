//! A text with its hash.
ghost use Rattle.std.specs.Prelude.{◌≡◌, Some, refl, bytes_eq};
ghost use Rattle.std.specs.Cmp.{partial_equiv_from_equiv};
ghost use Rattle.std.specs.Cmp.Lexicographic.{nat_list_eq_equiv};
ghost use Rattle.hash_order.specs.HashOrder as spec;
ghost use Rattle.hash_order.specs.HashOrder.{by_hash, by_hash_total, by_hash_ties, by_hash_po};

use std::cmp::Ordering;
use std::hash::{FoldHasher, Hasher};
use std::marker::Model;

/// Returns the hash of a text: always the same number for the same bytes.
///
/// An attacker can choose texts with equal hashes, so no result may require that hashes differ.
#[tactic(auto, unfolding(crate::specs::HashOrder::hash_of))]
pub fn hash_of(text: &str) -> u64
    ensures { result ≡ spec.hash_of text.now }
{
    let mut hasher = FoldHasher::default();
    hasher.write(text.as_bytes());
    hasher.finish()
}

/// A borrowed text as a key of sets and maps. Keys are equal if their bytes are. Their order is by hash, and by bytes if the hashes
/// are equal. So a search is fast also among texts that were chosen to have the same hash.
#[derive(Debug, Drop)]
pub struct HashedText<'a> {
    hash: u64,
    text: &'a str,
}

// Contracts see only the text.
impl<'a> Model for HashedText<'a> {
    ghost use Rattle.std.specs.Prelude.{◌≡◌, ℕ, List};
    ghost use Rattle.hash_order.specs.HashOrder.{hash_of};

    ghost Value = { List ℕ };

    ghost view = { λ key. key.text.now };

    ghost invariant = { λ key. key.hash ≡ hash_of key.text.now };
}

impl<'a> HashedText<'a> {
    /// Makes the key of a text whose hash the caller has.
    pub fn with_hash(text: &'a str, hash: u64) -> HashedText<'a>
        requires { hash ≡ spec.hash_of text.now }
        ensures { result ≡ text.now }
    {
        HashedText { hash, text }
    }
}

impl<'a> From<&'a str> for HashedText<'a> {
    ghost from_gives = { λ text key. key ≡ text.now };

    fn from(text: &'a str) -> HashedText<'a> {
        HashedText {
            hash: hash_of(text),
            text,
        }
    }
}

impl PartialEq for HashedText<'_> {
    ghost eq = { bytes_eq };

    ghost laws = { partial_equiv_from_equiv nat_list_eq_equiv };

    fn eq(&self, other: &Self) -> bool {
        self.text == other.text
    }
}

impl Eq for HashedText<'_> {
    ghost laws = { nat_list_eq_equiv };
}

impl PartialOrd for HashedText<'_> {
    ghost partial_cmp = { λ a b. Some (by_hash a b) };

    ghost laws = { by_hash_po };

    fn partial_cmp(&self, other: &Self) -> Option<Ordering> {
        Some(self.cmp(other))
    }
}

impl Ord for HashedText<'_> {
    ghost cmp = { by_hash };

    ghost total = { by_hash_total };

    ghost matches_partial_cmp = { λ a b. refl };

    ghost matches_eq = { by_hash_ties };

    fn cmp(&self, other: &Self) -> Ordering {
        match self.hash.cmp(&other.hash) {
            Ordering::Equal => self.text.cmp(other.text),
            order => order,
        }
    }
}
