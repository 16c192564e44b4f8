//! Which hosts are to be crawled.
ghost use Rattle.std.specs.Prelude.{◌≡◌, ◌↔◌, ℕ, List, Ok, IfOk, Contains, map, not, position};
ghost use Rattle.std.specs.List.{list_all};
ghost use Rattle.crawl_keys.specs.HostFilter as spec;
ghost use Rattle.crawl_keys.specs.Outcome.{Gives};

use crate::CanonUrl;
use crate::filter::suffixes::Suffixes;
use std::alloc::Global;
use std::marker::Model;
use std::sync::Arc;

mod error;
mod marks;
mod suffixes;

pub use error::FilterError;

/// A filter of URLs by their hosts.
///
/// A filter without suffixes allows every URL. Otherwise it allows the URLs whose host key is equal
/// to one of its suffixes, or ends with a dot and one of them. The suffixes are stored once and
/// shared by all copies, in any threads.
///
/// ```rust
/// let filter = Filter::new(alloc, &["a.test"])?;
/// assert!(rt; filter.allows(&canonical(alloc, "http://a.test:8080/")?));
/// assert!(rt; filter.allows(&canonical(alloc, "http://x.a.test/")?));
/// assert!(rt; !filter.allows(&canonical(alloc, "http://xa.test/")?));
/// assert!(rt; !filter.allows(&canonical(alloc, "http://a.test./")?));
/// ```
#[derive(Debug, Drop)]
pub struct Filter {
    shared: Arc<Suffixes>,
}

// In contracts, a filter is its suffixes, each once, in the order of their bytes.
impl Model for Filter {
    ghost use Rattle.std.specs.Prelude.{ℕ, List};
    ghost use Rattle.std.specs.Arc.{arc_value};

    ghost Value = { List (List ℕ) };

    ghost view = { λ filter. arc_value filter.shared };
}

impl Filter {
    /// The filter with these suffixes. Their order does not matter, nor does a suffix that is repeated.
    ///
    /// The error is `BadSuffix` with the index, from 0, of the first suffix that is empty or has a byte
    /// other than `a` to `z`, `0` to `9`, `-` and `.`. It is `NoMemory` when an allocation fails.
    pub fn new(alloc: Global, suffixes: &[&str]) -> Result<Filter, FilterError>
        ensures exact { Gives FilterError.NoMemory (λ filter. filter) result (spec.filter_of (map (λ suffix. suffix.now) suffixes.now)) }

        // The filter has exactly the given suffixes.
        ensures keeps { IfOk result (λ filter. (suffix : List ℕ) → Contains filter suffix ↔ Contains (map (λ suffix. suffix.now) suffixes.now) suffix) }
        ensures alike { IfOk result (λ filter. (url : List ℕ) → spec.allows filter url ≡ spec.allows (map (λ suffix. suffix.now) suffixes.now) url) }
    {
        if let Some(place) = first_bad(suffixes) {
            return Err(FilterError::BadSuffix(place as u64));
        }
        let kept = Suffixes::keep(alloc, suffixes)?;
        let shared = Arc::new(alloc, kept)?;
        Ok(Filter { shared })
    }

    /// A copy of the filter, which shares the suffixes.
    ///
    /// The only error is `NoMemory`, when the count of copies is at its limit.
    pub fn copy(&self) -> Result<Filter, FilterError>
        ensures { Gives FilterError.NoMemory (λ copy. copy) result (Ok self.now) }
    {
        let shared = Arc::try_clone(&self.shared)?;
        Ok(Filter { shared })
    }

    /// Whether the filter allows the URL.
    ///
    /// The call allocates nothing. It looks up the host key and the text after each of its dots, so its time hardly depends on the
    /// number of suffixes.
    pub fn allows(&self, url: &CanonUrl) -> bool
        ensures { result ≡ spec.allows self.now url.now }
    {
        let suffixes = self.shared.as_ref();
        suffixes.is_empty() || suffixes.have(url.host_key())
    }
}

/// The index of the first bad suffix, from 0.
fn first_bad(suffixes: &[&str]) -> Option<usize>
    ensures { result ≡ position (λ suffix. not (spec.is_good suffix.now)) suffixes.now }
{
    suffixes.iter().position(|suffix| !is_good(suffix))
}

/// Whether a suffix is not empty, and has only bytes that canonical hosts have.
fn is_good(suffix: &str) -> bool
    ensures { result ≡ spec.is_good suffix.now }
{
    !suffix.is_empty() && has_only_suffix_bytes(suffix)
}

/// Whether each byte of the text may be in a suffix. This is true of an empty text.
fn has_only_suffix_bytes(suffix: &str) -> bool
    ensures { result ≡ list_all spec.is_suffix_byte suffix.now }
{
    suffix.as_bytes().iter().all(|byte| is_suffix_byte(*byte))
}

/// Whether a suffix may have this byte: `a` to `z`, `0` to `9`, `-` or `.`.
fn is_suffix_byte(byte: u8) -> bool
    ensures { result ≡ spec.is_suffix_byte byte }
{
    matches!(byte, b'a'..=b'z' | b'0'..=b'9' | b'-' | b'.')
}
