//! Lists of texts that a hash index can search.
ghost use Rattle.std.specs.Prelude.{◌≡◌, ◌<◌, ℕ, List, [], length, map, get_or};
ghost use Rattle.hash_index.specs.Lists.{has_text_at};

use crate::keyed::Keyed;

/// A list of texts with indices from 0: items that have texts, or an arena of texts.
pub trait TextList {
    // The bytes of each text, in the list's order.
    ghost texts: { Self → List (List ℕ) };

    // The hash of a text.
    ghost hash: { List ℕ → ℕ };

    /// Returns the number of texts.
    fn text_count(&self) -> usize
        ensures { result ≡ length (texts self.now) };

    /// Returns the text at the index, which must be less than the number of texts.
    fn text_at(&self, index: usize) -> &str
        requires { index < length (texts self.now) }
        ensures { result.now ≡ get_or (texts self.now) index [] };

    /// Returns the hash of the text at the index.
    fn hash_at(&self, index: usize) -> u64
        requires { index < length (texts self.now) }
        ensures { result ≡ hash (get_or (texts self.now) index []) };
}

impl<T: Keyed> TextList for Vec<T> {
    ghost texts = { λ list. map T.text list.items };

    ghost hash = { T.hash };

    fn text_count(&self) -> usize {
        self.len()
    }

    fn text_at(&self, index: usize) -> &str {
        self[index].text()
    }

    fn hash_at(&self, index: usize) -> u64 {
        self[index].text_hash()
    }
}

impl<T: Keyed> TextList for &[T] {
    ghost texts = { λ list. map T.text list.now };

    ghost hash = { T.hash };

    fn text_count(&self) -> usize {
        self.len()
    }

    fn text_at(&self, index: usize) -> &str {
        self[index].text()
    }

    fn hash_at(&self, index: usize) -> u64 {
        self[index].text_hash()
    }
}

/// Whether the text is at the index.
pub(crate) fn has_text_at<L: TextList>(list: &L, index: usize, text: &str) -> bool
    ensures { result ≡ has_text_at (L.texts list.now) index text.now }
{
    index < list.text_count() && list.text_at(index) == text
}
