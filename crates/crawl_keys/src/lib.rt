//! Canonical URLs of web pages, their host keys, and the queue that a host key is assigned to.
//!
//! A crawler must know when two links lead to the same page. This crate gives each `http` or
//! `https` URL one spelling, its canonical text: the URL Standard's serialization, without the
//! fragment.
//!
//! - [`canonical`] reads an absolute URL, [`resolve`] a link on a page. A page with many links is a
//!   [`Base`], which resolves most of them without parsing.
//! - [`CanonUrl`] is the result. Equal URLs have equal texts, and a copy shares the text.
//! - [`CanonUrl::host_key`] is the host, and [`CanonUrl::subqueue`] the queue of the host. All URLs
//!   of a host are in one queue.
//! - [`Filter`] says which hosts are to be crawled.
//!
//! Errors are [`KeyError`] and [`FilterError`]. Nothing here waits, reads a file or uses the
//! network.
//!
//! ```rust
//! let page = canonical(alloc, "http://A.test:80/x/../y#f")?;
//! assert_eq!(rt; page.as_str(), "http://a.test/y");
//! assert_eq!(rt; page.host_key(), "a.test");
//! assert_eq!(rt; page.subqueue(2), 1);
//!
//! let link = resolve(alloc, &page, "z?q#g")?;
//! assert_eq!(rt; link.as_str(), "http://a.test/z?q");
//! ```
#![tactic(auto)]

mod assignment;
mod base;
mod canon_url;
mod cased;
mod dots;
mod error;
mod filter;
mod folder;
mod fragment;
mod lanes;
mod opaque;
mod parsed;
mod plain;
mod read;

pub use assignment::{SUBQUEUES_LIMIT, assign, can_assign, hash};
pub use base::Base;
pub use canon_url::CanonUrl;
pub use error::KeyError;
pub use filter::{Filter, FilterError};
pub use folder::is_of_folder;
pub use fragment::before_fragment;
pub use read::{canonical, is_canonical, resolve};
