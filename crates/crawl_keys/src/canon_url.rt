//! A canonical URL, its text and host, and its copies.
ghost use Rattle.std.specs.Prelude.{◌≡◌, ◌<◌, ◌≤◌, length, IsAscii, Ok};
ghost use Rattle.hash_order.specs.HashOrder.{hash_of};
ghost use Rattle.crawl_keys.specs.Assignment.{subqueue_of};
ghost use Rattle.crawl_keys.specs.CanonicalText.{IsCanonical};
ghost use Rattle.crawl_keys.specs.CanonicalText as spec;
ghost use Rattle.crawl_keys.specs.HostKey as spec_host;
ghost use Rattle.crawl_keys.specs.Limits.{subqueues_limit};
ghost use Rattle.crawl_keys.specs.Outcome.{Gives};
ghost use Rattle.crawl_keys.specs.Spelled.{IsSpelled};

use crate::plain::HostPlace;
use crate::{KeyError, assign};
use hash_index::Keyed;
use hash_order::HashedText;
use std::alloc::AllocError;
use std::marker::Model;
use std::mem::size_of;
use std::sync::Arc;

mod compared;
mod lay_out;
mod text;

pub(crate) use lay_out::is_web;
use text::Text;
pub(crate) use text::joined;

/// The canonical text of an `http` or `https` URL.
///
/// The text is the URL Standard's serialization of the URL, without its fragment. [`crate::canonical`],
/// [`crate::resolve`] and [`crate::Base`] make canonical URLs.
///
/// Two canonical URLs are equal, ordered and hashed as the bytes of their texts. The text is stored
/// once and shared by all copies, in any threads, so a copy takes 8 bytes and copies no text.
///
/// ```rust
/// let url = canonical(alloc, "HTTPS://A.Test:443")?;
/// assert_eq!(rt; url.as_str(), "https://a.test/");
/// assert_eq!(rt; url.host_key(), "a.test");
///
/// let copy = url.copy()?;
/// assert!(rt; copy == url);
/// ```
#[derive(Drop)]
pub struct CanonUrl {
    shared: Arc<Laid>,
}

// In contracts, a canonical URL is its text.
impl Model for CanonUrl {
    ghost use Rattle.std.specs.Prelude.{ℕ, List};
    ghost use Rattle.std.specs.Arc.{arc_value};
    ghost use Rattle.crawl_keys.specs.Layout.{IsLaidOut};

    ghost Value = { List ℕ };

    ghost view = { λ url. (arc_value url.shared).text };

    ghost invariant = { λ url. IsLaidOut (arc_value url.shared) };
}

// What the copies share: the hash of the text, the start and the end of the host in the text, and the text. The hash is
// first, since a comparison reads it first.
#[derive(Drop)]
struct Laid {
    hash: u64,
    host_start: u32,
    host_end: u32,
    text: Text,
}

// With the count of the copies it fills a memory block of 112 bytes.
const _: () = prove!(size_of::<Laid>() == 96);

impl CanonUrl {
    /// The canonical text. It is ASCII, and parses to this very URL.
    pub fn as_str(&self) -> &str
        ensures value { result.now ≡ self.now }

        // The canonical text of a canonical text is itself.
        ensures stable { spec.canonical self.now ≡ Ok self.now }

        // It is the text of a valid web URL with no fragment, and parses to that very URL.
        ensures canonical { IsCanonical self.now }
    {
        self.shared.as_ref().as_str()
    }

    /// The canonical text, which can be cut at any position.
    pub(crate) fn ascii(&self) -> &str
        ensures value { result.now ≡ self.now }
        ensures canonical { IsCanonical self.now }
        ensures ascii { IsAscii result.now }
    {
        let laid = self.shared.as_ref();
        laid.as_str()
    }

    /// The position of the host in the text.
    #[tactic(auto, using(crate::proofs::SpelledLemmas::spelled_at))]
    pub(crate) fn host(&self) -> HostPlace
        ensures spelled { IsSpelled self.now result.start result.end }
        ensures within { result.end ≤ length self.now }
    {
        self.shared.as_ref().host()
    }

    /// The serialized host, without port, user name and password.
    ///
    /// An IPv6 address keeps its brackets, and a trailing dot stays: `http://u:p@a.test./` has the host
    /// key `a.test.`, and `http://[::1]:80/` has `[::1]`.
    pub fn host_key(&self) -> &str
        ensures { result.now ≡ spec_host.host_key self.now }
    {
        self.shared.as_ref().host_key()
    }

    /// The hash of the text, as `hash_order` defines it. It is computed once, when the URL is made.
    pub fn text_hash(&self) -> u64
        ensures { result ≡ hash_of self.now }
    {
        self.shared.as_ref().hash()
    }

    /// The text as a key of sets and maps that are ordered by hash. The hash is the stored one, so no
    /// byte of the text is read.
    pub fn hashed(&self) -> HashedText<'_>
        ensures { result ≡ self.now }
    {
        HashedText::with_hash(self.as_str(), self.text_hash())
    }

    /// The queue, from 0, of n queues that the URL belongs to: the one of its host key ([`assign`]).
    ///
    /// The caller must pass an n from 1 to [`crate::SUBQUEUES_LIMIT`].
    pub fn subqueue(&self, n: u32) -> u32
        requires some { 1 ≤ n }
        requires few { n ≤ subqueues_limit }
        ensures value { result ≡ subqueue_of self.now n }
        ensures below { result < n }
    {
        assign(self.host_key(), n)
    }

    /// A copy of the URL, which shares the text: `clone`, with this crate's error.
    ///
    /// The only error is `NoMemory`, when the count of copies is at its limit.
    pub fn copy(&self) -> Result<CanonUrl, KeyError>
        ensures { Gives KeyError.NoMemory (λ copy. copy) result (Ok self.now) }
    {
        let copy = self.clone()?;
        Ok(copy)
    }
}

impl Keyed for CanonUrl {
    ghost use Rattle.hash_order.specs.HashOrder.{hash_of};

    ghost text = { λ url. url };

    ghost hash = { hash_of };

    fn text(&self) -> &str {
        self.as_str()
    }

    fn text_hash(&self) -> u64 {
        CanonUrl::text_hash(self)
    }
}

impl Clone for CanonUrl {
    ghost is_clone = { λ url copy. copy ≡ url };

    fn clone(&self) -> Result<CanonUrl, AllocError> {
        let shared = Arc::try_clone(&self.shared)?;
        Ok(CanonUrl { shared })
    }
}
