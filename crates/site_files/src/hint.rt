//! Why a URL has no page: a symbolic link that is not followed, a rule that another server has, or a folder without an index file.
ghost use Rattle.std.specs.Prelude.{◌≡◌, IfOk, not, option_map, string_bytes};
ghost use Rattle.site_files.specs.Entries.{entry_at, host_of};
ghost use Rattle.site_files.specs.Files.{server_of};
ghost use Rattle.site_files.specs.Hints.{folder_hint, hint_at, hint_for, hint_of_link, html_hint, is_folder, is_missing, is_moved, is_subfolder, missing_hint, other_hint, with_fallback};
ghost use Rattle.site_files.specs.Pages.{fallback_at, found_file};
ghost use Rattle.site_files.specs.declared.hint.Hint.TheVariants.{IndexFile};

use crate::files::SiteFiles;
use crate::pages::ends_in_slash;
use crate::spellings::{before_query, with_html};
use std::alloc::{AllocError, Global};

/// Why a URL has no page. A number is the index of a file among the names, which a server with another rule returns for the URL.
#[derive(Clone, Copy, Debug, PartialEq, Eq)]
pub enum Hint {
    /// The file is found with `Rules.html_fallback`.
    HtmlFallback(usize),
    /// The file is found if `Rules.index_files` has the last name on its path.
    IndexFile(usize),
    /// A symbolic link on the path of the URL leads out of the folder.
    LeadsOut,
    /// A symbolic link on the path of the URL leads to nothing.
    LeadsNowhere,
    /// The URL is that of a folder, which has no index file.
    NoIndexFile,
}

impl SiteFiles<'_> {
    /// Why a URL of the site has no page: the first symbolic link on its path that is not followed, or else what a server with other
    /// rules returns, or else that it is the URL of a folder. `None` if there is a page by the rules of the site, or if the site has a
    /// list.
    ///
    /// # Errors
    /// Out of memory.
    pub fn hint(&self, alloc: Global, url: &str) -> Result<Option<Hint>, AllocError>
        ensures { IfOk result (λ hint. hint ≡ hint_at self.now url.now) }
    {
        if self.listed.is_some() {
            return Ok(None);
        }
        match self.plain_of(alloc, url)? {
            Some(plain) => self.hint_for(alloc, plain.as_str()),
            None => Ok(None),
        }
    }

    /// The hint for the URL of a path and a query, which are looked up.
    fn hint_for(&self, alloc: Global, plain: &str) -> Result<Option<Hint>, AllocError>
        ensures { IfOk result (λ hint. hint ≡ hint_for self.now plain.now) }
    {
        let own = self.linked.own_url(alloc, plain)?;
        if self.has_page(own.as_str()) {
            return Ok(None);
        }
        self.missing_hint(alloc, own.as_str())
    }

    /// The hint for this URL, which has no page.
    fn missing_hint(&self, alloc: Global, url: &str) -> Result<Option<Hint>, AllocError>
        ensures { IfOk result (λ hint. hint ≡ missing_hint (entry_at self.now.pages) (entry_at self.now.homes) self.now.skipped (server_of self.now) url.now) }
    {
        match self.skipped.is_outside_on(alloc, url)? {
            Some(is_outside) => Ok(Some(hint_of_link(is_outside))),
            None => self.other_hint(alloc, url),
        }
    }

    /// The file that is found for this URL by other rules, or else that the URL is that of a folder.
    fn other_hint(&self, alloc: Global, url: &str) -> Result<Option<Hint>, AllocError>
        ensures { IfOk result (λ hint. hint ≡ other_hint (entry_at self.now.pages) (entry_at self.now.homes) (server_of self.now) url.now) }
    {
        match self.html_hint(alloc, url)? {
            Some(hint) => Ok(Some(hint)),
            None => Ok(self.folder_hint(url)),
        }
    }

    /// The file that the fallback finds for this URL, if the rules can have the fallback and do not have it.
    fn html_hint(&self, alloc: Global, url: &str) -> Result<Option<Hint>, AllocError>
        ensures { IfOk result (λ hint. hint ≡ html_hint (entry_at self.now.pages) (host_of self.now.rules.now) url.now) }
    {
        if self.rules.html_fallback || self.rules.exact {
            return Ok(None);
        }
        match self.fallback_file(alloc, url)? {
            Some(file) => Ok(Some(Hint::HtmlFallback(file))),
            None => Ok(None),
        }
    }

    /// The index of the file that the fallback finds for this URL.
    fn fallback_file(&self, alloc: Global, url: &str) -> Result<Option<usize>, AllocError>
        ensures { IfOk result (λ file. file ≡ found_file (fallback_at (entry_at self.now.pages) (with_fallback (host_of self.now.rules.now)) url.now)) }
    {
        if ends_in_slash(before_query(url).as_bytes()) {
            return Ok(None);
        }
        let html = with_html(alloc, url)?;
        Ok(self.pages.file_at(html.as_str()))
    }

    /// The hint if this is the URL of a folder: the file that is its page if the rules have its name, or else that it has no index file.
    fn folder_hint(&self, url: &str) -> Option<Hint>
        ensures { result ≡ folder_hint (entry_at self.now.pages) (entry_at self.now.homes) (string_bytes self.now.site.top) url.now }
    {
        match self.homes.file_at(url) {
            Some(file) => Some(Hint::IndexFile(file)),
            None if self.is_folder(url) => Some(Hint::NoIndexFile),
            None => None,
        }
    }

    /// Whether this is the URL of a folder: of the top, or of one below it.
    fn is_folder(&self, url: &str) -> bool
        ensures { result ≡ is_folder (entry_at self.now.pages) (string_bytes self.now.site.top) url.now }
    {
        url == self.top() || self.is_subfolder(url)
    }

    /// Whether this is the URL of a folder below the top, so that there is a redirect at the URL without its slash.
    #[tactic(auto, using(crate::proofs::Folders::subfolder, crate::proofs::Folders::no_subfolder))]
    fn is_subfolder(&self, url: &str) -> bool
        ensures { result ≡ is_subfolder (entry_at self.now.pages) url.now }
    {
        match url.strip_suffix("/") {
            Some(name) => self.is_moved(name),
            None => false,
        }
    }

    /// Whether the page with this URL is a redirect.
    #[tactic(auto, using(crate::proofs::Folders::moved_there, crate::proofs::Folders::none_moved))]
    fn is_moved(&self, url: &str) -> bool
        ensures { result ≡ is_moved (entry_at self.now.pages url.now) }
    {
        match self.find(url) {
            Some(number) => self.moved_to(number).is_some(),
            None => false,
        }
    }

    /// Whether there is a page with this URL.
    fn has_page(&self, url: &str) -> bool
        ensures { result ≡ not (is_missing (entry_at self.now.pages url.now)) }
    {
        self.find(url).is_some()
    }
}

/// The hint for a URL with such a symbolic link on its path.
fn hint_of_link(is_outside: bool) -> Hint
    ensures { result ≡ hint_of_link is_outside }
{
    if is_outside {
        Hint::LeadsOut
    } else {
        Hint::LeadsNowhere
    }
}
