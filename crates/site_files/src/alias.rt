//! Other URLs of files, and other names of folders.
ghost use Rattle.std.specs.Prelude.{◌≡◌, [], IfOk, string_bytes, unwrap_or, option_map};
ghost use Rattle.site_files.specs.Links.{FindsLink, IsLinkTable, own_in};
ghost use Rattle.site_files.specs.Pages.{own_spelling};
ghost use Rattle.site_files.specs.Server.{names_of};

use crawl_keys::CanonUrl;
use std::alloc::{AllocError, Global};
use std::marker::Model;

/// Another URL for which a server returns a file: it has another spelling or query, the name of an index file, or that of a symbolic
/// link to a folder. The only link of its page is the file's own URL.
#[derive(Drop)]
pub struct Alias {
    pub url: CanonUrl,
    /// The file's own URL, whose page has the links of the file. For an index file it is that of the folder.
    pub own: CanonUrl,
}

/// Another name of a folder, by a symbolic link.
#[derive(Debug, Drop)]
pub struct FolderLink {
    /// The other name, with a slash at its end.
    pub name: String,
    /// The name by which the contents of the folder are listed, with a slash at its end; empty for the top.
    pub own: String,
}

/// The URLs of such folders, in the order of the other names' URLs, each once. The URL of a file below another name is an alias of its own
/// URL.
#[derive(Drop)]
pub(crate) struct LinkedFolders {
    links: Vec<FolderLink>,
}

impl Model for LinkedFolders {
    ghost use Rattle.std.specs.Prelude.{List};
    ghost use Rattle.std.specs.List.Sorted.{IsStrictlySortedBy};
    ghost use Rattle.site_files.specs.Links.{cmp_names};
    ghost use Rattle.site_files.specs.declared.alias.FolderLink.{FolderLink};

    ghost Value = { List FolderLink };

    ghost view = { λ linked. linked.links.items };

    ghost invariant = { λ linked. IsStrictlySortedBy cmp_names linked.links.items };
}

impl LinkedFolders {
    /// The folders with these URLs in place of their names. Of those with one URL, the first counts.
    pub(crate) fn new(links: Vec<FolderLink>) -> Result<LinkedFolders, AllocError>
        ensures { IfOk result (IsLinkTable links.items) }
    {
        let mut links = links;
        links.sort_by(|a: &FolderLink, b: &FolderLink| a.name.as_str().cmp(b.name.as_str()))?;
        links.dedup_by(|link, last| link.name.as_str() == last.name.as_str());
        Ok(LinkedFolders { links })
    }

    /// Whether no folder has another name, so that no URL is below one.
    pub(crate) fn is_empty(&self) -> bool {
        self.links.is_empty()
    }

    /// A URL with the own URL of each folder in place of its other ones.
    #[tactic(auto, using(crate::proofs::OtherNames::spelled_cut, crate::proofs::OtherNames::spelled_last))]
    pub(crate) fn own_url(&self, alloc: Global, url: &str) -> Result<String, AllocError>
        ensures { IfOk result (λ own. string_bytes own ≡ own_spelling (own_in self.now) [] (names_of url.now)) }
    {
        let mut own = String::new(alloc);
        let mut rest = url;
        'names: while let Some((name, more)) = rest.split_once('/') {
            own.push_str(name)?;
            own.push('/')?;
            own = self.own_folder(alloc, own)?;
            rest = more;
        }
        own.push_str(rest)?;
        Ok(own)
    }

    /// The own URL of the folder with this URL.
    fn own_folder(&self, alloc: Global, url: String) -> Result<String, AllocError>
        ensures { IfOk result (λ own. string_bytes own ≡ own_in self.now (string_bytes url)) }
    {
        match self.other_own(url.as_str()) {
            Some(own) => String::from_str(alloc, own),
            None => Ok(url),
        }
    }

    /// The own URL of the folder with this URL, if that is another one.
    fn other_own(&self, url: &str) -> Option<&str>
        ensures { own_in self.now url.now ≡ unwrap_or (option_map (λ own. own.now) result) url.now }
    {
        let number = self.find(url)?;
        match self.links.get(number) {
            Some(link) => Some(link.own.as_str()),
            None => None,
        }
    }

    /// The number of the link with this URL.
    fn find(&self, url: &str) -> Option<usize>
        ensures { FindsLink self.now url.now result }
    {
        self.links
            .as_slice()
            .binary_search_by(|link| link.name.as_str().cmp(url))
            .ok()
    }
}
