//! The indices of texts whose hash has no vacant slot.
ghost use Rattle.std.specs.Prelude.{◌≡◌, ◌⊎◌, ℕ, List, Some, None, true, false, length, unwrap_or, IfOk, IfSome, bytes_eq};
ghost use Rattle.std.specs.BTreeMap.{get, get_by_text};
ghost use Rattle.std.specs.Ordering.{nat_cmp};
ghost use Rattle.hash_index.specs.Lists.{has_text_at};
ghost use Rattle.hash_index.specs.Overflow.{IsInOverflow};

use crate::text_list::{TextList, has_text_at};
use std::alloc::{AllocError, Global};
use std::collections::BTreeMap;

/// Two ordered maps. An attacker who chooses the texts can make many of them use the same slots, or even give them the same hash.
/// Their indices are then put here, and n texts are found in n log n steps, whatever they are.
///
/// An index only says where in the list to look; the text is in the list. So an index that was put here for a text that was then
/// not pushed does no harm.
#[derive(Debug, Drop)]
pub struct Overflow {
    /// By the hash: the index of the first text with this hash.
    pub by_hash: BTreeMap<u64, usize>,
    /// By the text: the indices of the further texts with the same hash.
    pub by_text: BTreeMap<String, usize>,
}

impl Overflow {
    /// Makes empty maps. They take no memory.
    pub fn new(alloc: Global) -> Overflow {
        Overflow {
            by_hash: BTreeMap::new(alloc),
            by_text: BTreeMap::new(alloc),
        }
    }

    /// Returns the index of the text, which has this hash, or `None` if the list does not have it.
    pub fn find<L: TextList>(&self, list: &L, text: &str, hash: u64) -> Option<usize>
        ensures found { IfSome result (λ index. has_text_at (L.texts list.now) index text.now ≡ true) }
        ensures missing { result ≡ None → (k : ℕ) → IsInOverflow self.now hash text.now k → has_text_at (L.texts list.now) k text.now ≡ false }
    {
        let first = *self.by_hash.get(&hash)?;
        if has_text_at(list, first, text) {
            return Some(first);
        }
        find_text(list, &self.by_text, text)
    }

    /// Returns the index of the text, which has this hash. If the list does not have it, the result is `None`, and the index that
    /// the list assigns next is kept for it.
    #[tactic(auto, using(crate::proofs::Keeping::misses_in_overflow))]
    pub fn find_or_insert<L: TextList>(
        &mut self,
        alloc: Global,
        list: &L,
        text: &str,
        hash: u64,
    ) -> Result<Option<usize>, AllocError>
        ensures found { IfOk result (λ found. IfSome found (λ index. has_text_at (L.texts list.now) index text.now ≡ true)) }
        ensures missing { IfOk result (λ found. found ≡ None → (k : ℕ) → IsInOverflow self.old hash text.now k → has_text_at (L.texts list.now) k text.now ≡ false) }
        ensures own { IfOk result (λ found. found ≡ None → IsInOverflow self.new hash text.now (length (L.texts list.now))) }
        // An index whose text is in the list stays kept, even after an error.
        ensures stay { (other : List ℕ) (h k : ℕ) → IsInOverflow self.old h other k → has_text_at (L.texts list.now) k other ≡ true → IsInOverflow self.new h other k }
    {
        let index = list.text_count();
        let first = hash_or_insert(&mut self.by_hash, hash, index)?;
        if has_text_at(list, first, text) {
            return Ok(Some(first));
        }
        if first == index {
            // Nearly always this is the only text with the hash.
            return Ok(find_text(list, &self.by_text, text));
        }
        find_text_or_insert(alloc, &mut self.by_text, list, text)
    }

    /// Keeps the index for the text, which has this hash.
    pub fn put(
        &mut self,
        alloc: Global,
        text: &str,
        hash: u64,
        index: usize,
    ) -> Result<(), AllocError>
        ensures own { IfOk result (λ _. IsInOverflow self.new hash text.now index) }
        // What was kept stays kept, even after an error.
        ensures again { IsInOverflow self.old hash text.now index → IsInOverflow self.new hash text.now index }
        ensures others { (other : List ℕ) (h k : ℕ) → bytes_eq text.now other ≡ false → IsInOverflow self.old h other k → IsInOverflow self.new h other k }
    {
        if hash_or_insert(&mut self.by_hash, hash, index)? == index {
            return Ok(());
        }
        put_text(alloc, &mut self.by_text, text, index)
    }
}

/// Returns the index that is kept for the hash. If there was none, this one is kept from now on.
fn hash_or_insert(
    by_hash: &mut BTreeMap<u64, usize>,
    hash: u64,
    index: usize,
) -> Result<usize, AllocError>
    ensures own { IfOk result (λ kept. get nat_cmp by_hash.new hash ≡ Some kept) }
    ensures kept { IfOk result (λ kept. kept ≡ unwrap_or (get nat_cmp by_hash.old hash) index) }
    ensures others { (other k : ℕ) → get nat_cmp by_hash.old other ≡ Some k → get nat_cmp by_hash.new other ≡ Some k }
{
    Ok(*by_hash.entry(hash)?.or_insert(index))
}

/// Returns the index that is kept for the text, if the list has the text there.
fn find_text<L: TextList>(list: &L, by_text: &BTreeMap<String, usize>, text: &str) -> Option<usize>
    ensures found { IfSome result (λ index. has_text_at (L.texts list.now) index text.now ≡ true) }
    ensures missing { result ≡ None → (k : ℕ) → get_by_text by_text.now text.now ≡ Some k → has_text_at (L.texts list.now) k text.now ≡ false }
{
    match by_text.get(text) {
        Some(index) if has_text_at(list, *index, text) => Some(*index),
        _ => None,
    }
}

/// Returns the index that is kept for the text, if the list has the text there. Otherwise the result is `None`, and the index that
/// the list assigns next is kept for it. One search does both.
#[tactic(auto, using(crate::proofs::Keeping::text_stays))]
fn find_text_or_insert<L: TextList>(
    alloc: Global,
    by_text: &mut BTreeMap<String, usize>,
    list: &L,
    text: &str,
) -> Result<Option<usize>, AllocError>
    ensures found { IfOk result (λ found. IfSome found (λ index. has_text_at (L.texts list.now) index text.now ≡ true)) }
    ensures missing { IfOk result (λ found. found ≡ None → (k : ℕ) → get_by_text by_text.old text.now ≡ Some k → has_text_at (L.texts list.now) k text.now ≡ false) }
    ensures own { IfOk result (λ found. found ≡ None → get_by_text by_text.new text.now ≡ Some (length (L.texts list.now))) }
    ensures stay { (other : List ℕ) (k : ℕ) → get_by_text by_text.old other ≡ Some k → has_text_at (L.texts list.now) k other ≡ true → get_by_text by_text.new other ≡ Some k }
{
    let index = list.text_count();
    let kept = text_or_insert(alloc, by_text, text, index)?;
    if has_text_at(list, kept, text) {
        return Ok(Some(kept));
    }
    if kept != index {
        // The index was kept for a text that was never pushed.
        put_text(alloc, by_text, text, index)?;
    }
    Ok(None)
}

/// Returns the index that is kept for the text. If there was none, this one is kept from now on.
#[tactic(auto, using(std::proofs::lemmas::Map::Text::text_keys))]
fn text_or_insert(
    alloc: Global,
    by_text: &mut BTreeMap<String, usize>,
    text: &str,
    index: usize,
) -> Result<usize, AllocError>
    ensures kept { IfOk result (λ kept. kept ≡ unwrap_or (get_by_text by_text.old text.now) index) }
    ensures own { IfOk result (λ kept. get_by_text by_text.new text.now ≡ Some kept) }
    ensures others { (other : List ℕ) (k : ℕ) → get_by_text by_text.old other ≡ Some k → get_by_text by_text.new other ≡ Some k }
{
    let key = String::from_str(alloc, text)?;
    Ok(*by_text.entry(key)?.or_insert(index))
}

/// Keeps the index for the text, in place of another.
fn put_text(
    alloc: Global,
    by_text: &mut BTreeMap<String, usize>,
    text: &str,
    index: usize,
) -> Result<(), AllocError>
    ensures own { IfOk result (λ _. get_by_text by_text.new text.now ≡ Some index) }
    ensures again { get_by_text by_text.old text.now ≡ Some index → get_by_text by_text.new text.now ≡ Some index }
    ensures others { (other : List ℕ) (k : ℕ) → bytes_eq text.now other ≡ false → get_by_text by_text.old other ≡ Some k → get_by_text by_text.new other ≡ Some k }
{
    let key = String::from_str(alloc, text)?;
    by_text.insert(key, index)?;
    Ok(())
}
