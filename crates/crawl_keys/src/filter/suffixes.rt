//! The suffixes of a filter: an ordered set, and a table of marks.
ghost use Rattle.std.specs.Prelude.{◌≡◌, ◌<◌, Ok, MatchOption, length, map, bytes_eq};
ghost use Rattle.std.specs.BTreeSet.{insert_key};
ghost use Rattle.std.specs.Cmp.Lexicographic.{slice_cmp};
ghost use Rattle.std.specs.List.{list_any, after_first, position_or_len};
ghost use Rattle.std.specs.Ordering.{nat_cmp};
ghost use Rattle.crawl_keys.specs.HostFilter.{in_order};
ghost use Rattle.crawl_keys.specs.HostFilter as spec;
ghost use Rattle.crawl_keys.specs.Outcome.{Gives};

use crate::filter::error::FilterError;
use crate::filter::marks::Marks;
use std::alloc::Global;
use std::collections::BTreeSet;
use std::fmt;
use std::marker::Model;

/// Suffixes of hosts, each once.
#[derive(Drop)]
pub(super) struct Suffixes {
    pub(super) texts: BTreeSet<String>,
    marks: Marks,
}

// In contracts, suffixes are their bytes, in order. Each suffix is marked, so a text without a mark is not a suffix.
impl Model for Suffixes {
    ghost use Rattle.std.specs.Prelude.{ℕ, List, map, string_bytes};
    ghost use Rattle.crawl_keys.specs.Marks.{AreMarked};

    ghost Value = { List (List ℕ) };

    ghost view = { λ suffixes. map string_bytes suffixes.texts.keys };

    ghost invariant = { λ suffixes. AreMarked suffixes.marks (map string_bytes suffixes.texts.keys) };
}

impl fmt::Debug for Suffixes {
    fn fmt<W: fmt::Write>(&self, f: &mut fmt::Formatter<W>) -> fmt::Result {
        self.texts.fmt(f)
    }
}

impl Suffixes {
    /// Stores these suffixes.
    pub(super) fn keep(alloc: Global, suffixes: &[&str]) -> Result<Suffixes, FilterError>
        ensures { Gives FilterError.NoMemory (λ kept. kept) result (Ok (in_order (map (λ suffix. suffix.now) suffixes.now))) }
    {
        let mut kept = Suffixes {
            texts: BTreeSet::new(alloc),
            marks: Marks::new(alloc, suffixes.len())?,
        };
        for suffix in suffixes {
            kept.add(alloc, suffix)?;
        }
        Ok(kept)
    }

    /// Adds a suffix, if it is not stored yet.
    fn add(&mut self, alloc: Global, suffix: &str) -> Result<(), FilterError>
        ensures { Gives FilterError.NoMemory (λ _. self.new) result (Ok (insert_key (slice_cmp nat_cmp) self.old suffix.now)) }
    {
        let text = String::from_str(alloc, suffix)?;
        self.marks.mark(suffix);
        self.texts.insert(text)?;
        Ok(())
    }

    /// Whether there are none.
    pub(super) fn is_empty(&self) -> bool
        ensures { result ≡ spec.is_none self.now }
    {
        self.texts.is_empty()
    }

    /// Whether the host is one of the suffixes, or ends with a dot and one of them.
    pub(super) fn have(&self, host: &str) -> bool
        ensures { result ≡ list_any (spec.is_within host.now) self.now }
    {
        if self.contains(host) {
            return true;
        }
        let mut rest = host;
        while let Some((_, following)) = split_dot(rest) {
            if self.contains(following) {
                return true;
            }
            rest = following;
        }
        false
    }

    /// Whether the text is one of the suffixes. The marks exclude most other texts without a search.
    fn contains(&self, text: &str) -> bool
        ensures { result ≡ list_any (bytes_eq text.now) self.now }
    {
        self.marks.has(text) && self.texts.contains(text)
    }
}

/// The text before the first dot, and the text after it.
fn split_dot(text: &str) -> Option<(&str, &str)>
    ensures { MatchOption result (position_or_len spec.is_dot text.now ≡ length text.now) (λ x. (position_or_len spec.is_dot text.now < length text.now) × (x.1.now ≡ after_first spec.is_dot text.now)) }
{
    text.split_once('.')
}
