//! A count of the results that link to a URL.
ghost use Rattle.std.specs.Prelude.{◌≡◌, OnOk, option_map};
ghost use Rattle.crawl_sources.specs.Sources.{least_with};
ghost use Rattle.crawl_sources.specs.Tallies.{pointed, none_counted, counted};

use crawl_pages::NoMemory;
use std::alloc::Global;
use std::marker::Model;

/// The number of results that link to a URL, the least of their URLs, and all of their URLs if they are to be listed.
#[derive(Drop)]
pub struct Tally<'a> {
    count: u64,
    page: Option<&'a str>,
    all: Vec<&'a str>,
    /// The number of the result that was counted last, from 1.
    last: u64,
}

// Contracts see pages as their texts. The count is at most the number of results that were read, so it never overflows.
impl<'a> Model for Tally<'a> {
    ghost use Rattle.std.specs.Prelude.{◌≤◌, option_map};
    ghost use Rattle.crawl_sources.specs.Tallies.{Count, pointed};

    ghost Value = { Count };

    ghost view = { λ t. record { count = t.count; page = option_map (λ p. p.now) t.page; all = pointed t.all.items; last = t.last } };

    ghost invariant = { λ t. t.count ≤ t.last };
}

impl<'a> Tally<'a> {
    /// Makes a count of 0.
    pub fn new(alloc: Global) -> Tally<'a>
        ensures { result ≡ none_counted }
    {
        Tally {
            count: 0,
            page: None,
            all: Vec::new(alloc),
            last: 0,
        }
    }

    /// Counts the result with this number, from 1, and this URL, unless it was counted last. Its URL is kept if `all` is set.
    pub fn add(&mut self, all: bool, number: u64, url: &'a str) -> Result<(), NoMemory>
        ensures { OnOk result (self.new ≡ counted all number url.now self.old) }
    {
        if self.last >= number {
            return Ok(());
        }
        if all {
            self.all.push(url)?;
        }
        self.count += 1;
        self.page = least_with(self.page, url);
        self.last = number;
        Ok(())
    }

    /// Returns the number of results.
    pub fn count(&self) -> u64
        ensures { result ≡ self.now.count }
    {
        self.count
    }

    /// Returns the least of their URLs, or `None` if there is no result.
    pub fn page(&self) -> Option<&'a str>
        ensures { option_map (λ p. p.now) result ≡ self.now.page }
    {
        self.page
    }

    /// Returns their URLs, if they were kept.
    pub fn all(&self) -> &[&'a str]
        ensures { pointed result.now ≡ self.now.all }
    {
        self.all.as_slice()
    }
}

/// Returns the least of a text and of the least text so far, if there is one.
fn least_with<'a>(least: Option<&'a str>, text: &'a str) -> Option<&'a str>
    ensures { option_map (λ p. p.now) result ≡ least_with (option_map (λ p. p.now) least.entry) text.now }
{
    match least {
        Some(least) if text >= least => Some(least),
        _ => Some(text),
    }
}
