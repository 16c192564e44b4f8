//! Symbolic links that are not followed.
ghost use Rattle.std.specs.Prelude.{◌≡◌, [], IfOk};
ghost use Rattle.site_files.specs.Server.{names_of};
ghost use Rattle.site_files.specs.Skipped.{FindsSkipped, IsSkipTable, outside_in, outside_on};

use std::alloc::{AllocError, Global};
use std::marker::Model;

/// A symbolic link that is not followed.
#[derive(Drop)]
pub struct SkippedLink {
    /// Its name below the top. No slash is at its end, even if it leads to a folder.
    pub name: String,
    /// Whether it leads out of the folder. If not, it leads to nothing.
    pub is_outside: bool,
}

/// Such links with their URLs in place of their names, in the order of these, each once.
#[derive(Drop)]
pub(crate) struct SkippedLinks {
    links: Vec<SkippedLink>,
}

impl Model for SkippedLinks {
    ghost use Rattle.std.specs.Prelude.{List};
    ghost use Rattle.std.specs.List.Sorted.{IsStrictlySortedBy};
    ghost use Rattle.site_files.specs.Skipped.{cmp_names};
    ghost use Rattle.site_files.specs.declared.skipped.SkippedLink.{SkippedLink};

    ghost Value = { List SkippedLink };

    ghost view = { λ skipped. skipped.links.items };

    ghost invariant = { λ skipped. IsStrictlySortedBy cmp_names skipped.links.items };
}

impl SkippedLinks {
    /// The links with these URLs in place of their names. Of those with one URL, the first counts.
    pub(crate) fn new(links: Vec<SkippedLink>) -> Result<SkippedLinks, AllocError>
        ensures { IfOk result (IsSkipTable links.items) }
    {
        let mut links = links;
        links.sort_by(|a: &SkippedLink, b: &SkippedLink| a.name.as_str().cmp(b.name.as_str()))?;
        links.dedup_by(|link, last| link.name.as_str() == last.name.as_str());
        Ok(SkippedLinks { links })
    }

    /// Whether the first link on the path of a URL leads out of the folder, if a link is there: at a front of the URL that ends before a
    /// slash, or at the URL.
    #[tactic(auto, using(crate::proofs::SkippedLinks::link_on, crate::proofs::SkippedLinks::no_link_on, crate::proofs::SkippedLinks::link_last))]
    pub(crate) fn is_outside_on(&self, alloc: Global, url: &str) -> Result<Option<bool>, AllocError>
        ensures { IfOk result (λ found. found ≡ outside_on (outside_in self.now) [] (names_of url.now)) }
    {
        let mut front = String::new(alloc);
        let mut rest = url;
        'names: while let Some((name, more)) = rest.split_once('/') {
            front.push_str(name)?;
            if let Some(is_outside) = self.is_outside(front.as_str()) {
                return Ok(Some(is_outside));
            }
            front.push('/')?;
            rest = more;
        }
        front.push_str(rest)?;
        Ok(self.is_outside(front.as_str()))
    }

    /// Whether the link with this URL leads out of the folder, if there is one.
    fn is_outside(&self, url: &str) -> Option<bool>
        ensures { result ≡ outside_in self.now url.now }
    {
        let number = self.find(url)?;
        match self.links.get(number) {
            Some(link) => Some(link.is_outside),
            None => None,
        }
    }

    /// The number of the link with this URL.
    fn find(&self, url: &str) -> Option<usize>
        ensures { FindsSkipped self.now url.now result }
    {
        self.links
            .as_slice()
            .binary_search_by(|link| link.name.as_str().cmp(url))
            .ok()
    }
}
