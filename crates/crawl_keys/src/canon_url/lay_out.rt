//! Storing a URL in memory, and reading what was stored.
ghost use Rattle.std.specs.Prelude.{◌≡◌, ◌++◌, Ok};
ghost use Rattle.url.specs.Parts.{IsValid};
ghost use Rattle.crawl_keys.specs.CanonicalText.{text_of};
ghost use Rattle.crawl_keys.specs.CanonicalText as spec;
ghost use Rattle.crawl_keys.specs.HostKey as spec_host;
ghost use Rattle.crawl_keys.specs.Layout.{IsLaidOut};
ghost use Rattle.crawl_keys.specs.Outcome.{Gives};
ghost use Rattle.crawl_keys.specs.Spelled.{IsSpelled};

use super::Laid;
use super::text::Text;
use crate::plain::HostPlace;
use crate::{CanonUrl, KeyError};
use hash_order::hash_of;
use std::alloc::Global;
use std::sync::Arc;
use url::{Position, Url};

impl CanonUrl {
    /// The canonical URL of a parsed one: its text without its fragment.
    pub(crate) fn keep(alloc: Global, url: &Url) -> Result<CanonUrl, KeyError>
        ensures { Gives KeyError.NoMemory (λ kept. kept) result (text_of url.now) }
    {
        if !is_web(url) {
            return Err(KeyError::NotHttp);
        }
        let text = url.slice(Position::BeforeScheme, Position::AfterQuery);
        let host = HostPlace {
            start: url.index(Position::BeforeHost),
            end: url.index(Position::AfterHost),
        };
        CanonUrl::join(alloc, text, "", host)
    }

    /// The canonical URL whose text is `front` followed by `back`, with the host at this position.
    pub(crate) fn join(
        alloc: Global,
        front: &str,
        back: &str,
        host: HostPlace,
    ) -> Result<CanonUrl, KeyError>
        requires { IsSpelled (front.now ++ back.now) host.start host.end }
        ensures { Gives KeyError.NoMemory (λ url. url) result (Ok (front.now ++ back.now)) }
    {
        // From 4 GB on a position does not fit.
        let Ok(host_start) = u32::try_from(host.start) else {
            return Err(KeyError::NoMemory);
        };
        let Ok(host_end) = u32::try_from(host.end) else {
            return Err(KeyError::NoMemory);
        };
        // The text is written into the record, so that all of it is moved only once, to what the copies share.
        let mut laid = Laid {
            hash: 0,
            host_start,
            host_end,
            text: Text::new(),
        };
        laid.text.write(alloc, front, back)?;
        laid.hash = hash_of(laid.text.as_str());
        match Arc::new(alloc, laid) {
            Ok(shared) => Ok(CanonUrl { shared }),
            Err(_) => Err(KeyError::NoMemory),
        }
    }
}

impl Laid {
    /// The text.
    pub(super) fn as_str(&self) -> &str
        ensures { result.now ≡ self.now.text }
    {
        self.text.as_str()
    }

    /// The position of the host in the text.
    pub(super) fn host(&self) -> HostPlace
        ensures start { result.start ≡ self.now.host_start }
        ensures end { result.end ≡ self.now.host_end }
    {
        HostPlace {
            start: self.host_start as usize,
            end: self.host_end as usize,
        }
    }

    /// The hash of the text.
    pub(super) fn hash(&self) -> u64
        ensures { result ≡ self.now.hash }
    {
        self.hash
    }

    /// The host without its port.
    pub(super) fn host_key(&self) -> &str
        requires { IsLaidOut self.now }
        ensures { result.now ≡ spec_host.host_key self.now.text }
    {
        &self.text.as_str()[self.host_start as usize..self.host_end as usize]
    }
}

/// Whether the scheme is `http` or `https`.
pub(crate) fn is_web(url: &Url) -> bool
    ensures value { result ≡ spec.is_web url.now }
    ensures valid { IsValid url.now }
{
    url.scheme() == "http" || url.scheme() == "https"
}
