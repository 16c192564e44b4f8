//! Tests of what no contract says: that a failed allocation is an error, and leaves the index as it was. The lists are random. Their
//! texts have only three hashes, so that they compete for the same slots.
ghost use Rattle.std.specs.Prelude.{◌≡◌, ◌*◌, ◌%◌, ℕ, List, map, length};
ghost use Rattle.hash_index.specs.Index.{IsIndexOf};

use hash_index::{HashIndex, Keyed};
use std::alloc::{AllocError, Global};
use std::marker::Model;

/// The number of random lists.
const LISTS: u64 = 100_000;

/// The number that `rt try` can run, with each initial capacity once.
const FEW_LISTS: u64 = 24;

/// The number of random texts for a list.
const TEXTS_IN_A_LIST: usize = 40;

/// The same number of each of the three hashes, of which one slot's bucket takes eight.
const TEXTS: [&str; 36] = [
    "a", "b", "c", "d", "e", "f", "g", "h", "i", "j", "k", "l", "aa", "bb", "cc", "dd", "ee", "ff",
    "gg", "hh", "ii", "jj", "kk", "ll", "aaa", "bbb", "ccc", "ddd", "eee", "fff", "ggg", "hhh",
    "iii", "jjj", "kkk", "lll",
];

/// A text that has one of three hashes, by its length.
#[derive(Drop)]
struct Word {
    text: &'static str,
}

impl Model for Word {
    ghost use Rattle.std.specs.Prelude.{List, ℕ};

    ghost Value = { List ℕ };

    ghost view = { λ word. word.text.now };
}

impl Keyed for Word {
    ghost text = { λ word. word };

    ghost hash = { λ text. length text % 3 * 8589934593 };

    fn text(&self) -> &str {
        self.text
    }

    fn text_hash(&self) -> u64 {
        (self.text.len() % 3) as u64 * 8_589_934_593
    }
}

/// A list with its index.
#[derive(Drop)]
struct IndexedTexts {
    list: Vec<Word>,
    index: HashIndex,
}

impl Model for IndexedTexts {
    ghost use Rattle.std.specs.Prelude.{◌*◌, ◌%◌, ℕ, List, map, length};
    ghost use Rattle.hash_index.specs.Index.{IsIndexOf};

    ghost Value = { List (List ℕ) };

    ghost view = { λ indexed. indexed.list.items };

    ghost invariant = { λ indexed. IsIndexOf (λ text. length text % 3 * 8589934593) (map (λ word. word) indexed.list.items) indexed.index };
}

impl IndexedTexts {
    fn with_capacity(alloc: Global, count: usize) -> Result<IndexedTexts, AllocError> {
        Ok(IndexedTexts {
            list: Vec::new(alloc),
            index: HashIndex::with_capacity(alloc, count)?,
        })
    }

    /// Adds the word unless it is there, and returns its index.
    fn add(&mut self, word: Word) -> Result<Option<usize>, AllocError> {
        let found = self.index.find_or_insert(&self.list, &word)?;
        if found.is_some() {
            return Ok(found);
        }
        self.list.push(word)?;
        Ok(None)
    }

    fn find(&self, word: &Word) -> Option<usize> {
        self.index.find(&self.list.as_slice(), word)
    }

    /// The index of the text, by a search through all.
    fn search(&self, text: &str) -> Option<usize> {
        for index in 0..self.list.len() {
            if self.list[index].text == text {
                return Some(index);
            }
        }
        None
    }

    /// Whether each text is found at its index.
    fn finds_all(&self) -> bool {
        for number in 0..TEXTS.len() {
            let word = nth_word(number);
            if self.find(&word) != self.search(word.text) {
                return false;
            }
        }
        true
    }

    /// Adds the word, and returns whether it was found at its index. After a failed allocation all are found as before.
    fn adds(&mut self, word: Word) -> bool {
        let found_at = self.search(word.text);
        match self.add(word) {
            Ok(found) => found == found_at,
            Err(_) => self.finds_all(),
        }
    }
}

fn nth_word(number: usize) -> Word {
    Word {
        text: TEXTS[number % TEXTS.len()],
    }
}

/// Whether all texts are found in one random list, while it grows and at the end.
fn finds_random(alloc: Global, seed: u64) -> bool {
    let Ok(mut indexed) = IndexedTexts::with_capacity(alloc, seed as usize % 24) else {
        return true;
    };
    let mut random = seed;
    for _ in 0..TEXTS_IN_A_LIST {
        random = random
            .wrapping_mul(6_364_136_223_846_793_005)
            .wrapping_add(1_442_695_040_888_963_407);
        if !indexed.adds(nth_word((random >> 33) as usize)) {
            return false;
        }
    }
    indexed.finds_all()
}

/// Whether all texts are found in each of this number of random lists.
fn finds_in_each(alloc: Global, lists: u64) -> bool {
    for seed in 0..lists {
        if !finds_random(alloc, seed) {
            return false;
        }
    }
    true
}

#[test]
fn finds_what_a_plain_search_finds(rt: HostRuntime) {
    assert!(&rt; finds_in_each(rt.alloc(), LISTS));
}

// `rt try --test --fail-alloc N -- refused` makes the Nth allocation fail.
#[test]
fn finds_all_after_a_failed_allocation(rt: HostRuntime) {
    assert!(&rt; finds_in_each(rt.alloc(), FEW_LISTS));
}
