//! The URLs for which a server returns a page of the site, although they are not its URL: another spelling, a query, a path through a
//! symbolic link to a folder, or a name without its `.html`.
ghost use Rattle.std.specs.Prelude.{◌≡◌, ◌&&◌, [], IfOk, not, string_bytes, option_map};
ghost use Rattle.site_files.specs.Entries.{LeadsTo, entry_at, host_of};
ghost use Rattle.site_files.specs.Files.{server_of};
ghost use Rattle.site_files.specs.Links.{own_in};
ghost use Rattle.site_files.specs.Pages.{Missing, ends_in_slash, fallback_at, own_spelling, plain_at, spelled_at};
ghost use Rattle.site_files.specs.Server.{before_query, is_accepted, known_query, names_of, path_at, accepted_key};
ghost use Rattle.site_files.specs.Serving.{served_at};
ghost use Rattle.site_files.specs.Urls.{with_html};

use crate::below::unescaped;
use crate::escapes::{looked_up, push_respelled};
use crate::files::SiteFiles;
use crate::pages::ends_in_slash;
use crate::rules::split_name;
use crawl_keys::CanonUrl;
use std::alloc::{AllocError, Global};

impl SiteFiles<'_> {
    /// Whether the URL of a link with this text can be another spelling. If no symbolic link leads to a folder and there is no fallback,
    /// the text must have an escape, a query, or consecutive slashes before its fragment. A backslash is a slash in a URL.
    pub fn can_spell(&self, text: &[u8]) -> bool {
        if self.rules.html_fallback || !self.linked.is_empty() {
            return true;
        }
        !self.rules.exact && has_mark(text)
    }

    /// The number of the page that a server returns for a URL, if it returns one.
    ///
    /// # Errors
    /// Out of memory.
    #[tactic(auto, using(crate::proofs::Lookups::leads_first, crate::proofs::Lookups::leads_other))]
    pub fn served(&self, alloc: Global, url: &CanonUrl) -> Result<Option<usize>, AllocError>
        ensures { IfOk result (λ found. LeadsTo self.now.pages (served_at self.now url.now) found) }
    {
        match self.find(url.as_str()) {
            Some(number) => Ok(Some(number)),
            None => self.look_up(alloc, url),
        }
    }

    /// The number of the page that a server returns for a URL, if the URL is not that of a page.
    ///
    /// # Errors
    /// Out of memory.
    pub fn look_up(&self, alloc: Global, url: &CanonUrl) -> Result<Option<usize>, AllocError>
        ensures { entry_at self.now.pages url.now ≡ Missing → IfOk result (λ found. LeadsTo self.now.pages (spelled_at (entry_at self.now.pages) (own_in self.now.linked) (server_of self.now) url.now) found) }
    {
        if self.find(url.as_str()).is_some() {
            return Ok(None);
        }
        match self.plain_of(alloc, url.as_str())? {
            Some(plain) => self.look_up_plain(alloc, plain.as_str()),
            None => Ok(None),
        }
    }

    /// The number of the page that is looked up by this URL of a path and a query.
    fn look_up_plain(&self, alloc: Global, plain: &str) -> Result<Option<usize>, AllocError>
        ensures { IfOk result (λ found. LeadsTo self.now.pages (plain_at (entry_at self.now.pages) (host_of self.now.rules.now) (own_spelling (own_in self.now.linked) [] (names_of plain.now))) found) }
    {
        let own = self.linked.own_url(alloc, plain)?;
        match self.find(own.as_str()) {
            Some(page) => Ok(Some(page)),
            None => self.look_up_html(alloc, own.as_str()),
        }
    }

    /// The number of the page at this URL with `.html` added to its path, if the rules have this fallback and the path does not end with a
    /// slash.
    fn look_up_html(&self, alloc: Global, url: &str) -> Result<Option<usize>, AllocError>
        ensures { IfOk result (λ found. LeadsTo self.now.pages (fallback_at (entry_at self.now.pages) (host_of self.now.rules.now) url.now) found) }
    {
        if !self.is_tried(url) {
            return Ok(None);
        }
        let html = with_html(alloc, url)?;
        Ok(self.find(html.as_str()))
    }

    /// Whether a URL without a page is looked up again with `.html` added to its path.
    fn is_tried(&self, url: &str) -> bool
        ensures { result ≡ (self.now.rules.now.html_fallback && not (ends_in_slash (before_query url.now))) }
    {
        self.rules.html_fallback && !ends_in_slash(before_query(url).as_bytes())
    }

    /// The URL of the file or folder that a server looks up for a URL, or `None` if it looks up none.
    pub(crate) fn plain_of(&self, alloc: Global, url: &str) -> Result<Option<String>, AllocError>
        ensures { IfOk result (λ plain. option_map string_bytes plain ≡ accepted_key (server_of self.now) url.now) }
    {
        let (path, query) = split_name(url, true);
        let Some(path) = self.path_at(alloc, path.as_bytes())? else {
            return Ok(None);
        };
        let query = self.known_query(query);
        let plain = self.site.url_of(path.as_slice(), query)?;
        if !self.is_accepted(plain.as_str(), url) {
            return Ok(None);
        }
        Ok(Some(plain))
    }

    /// The path that a server looks up for the path of a URL, or `None` if that is not below the top.
    fn path_at(&self, alloc: Global, path: &[u8]) -> Result<Option<Vec<u8>>, AllocError>
        ensures { IfOk result (λ found. option_map (λ p. p.items) found ≡ path_at (server_of self.now) path.now) }
    {
        let Some(rest) = path.strip_prefix(self.origin().as_bytes()) else {
            return Ok(None);
        };
        let mut spelled = String::from_str(alloc, self.origin())?;
        push_respelled(alloc, rest, &mut spelled)?;
        let Some(below) = spelled.as_bytes().strip_prefix(self.top().as_bytes()) else {
            return Ok(None);
        };
        let below = unescaped(alloc, below)?;
        looked_up(alloc, below.as_slice())
    }

    /// The query of a URL, if it counts.
    fn known_query<'q>(&self, query: Option<&'q str>) -> Option<&'q str>
        ensures { option_map (λ q. q.now) result ≡ known_query (host_of self.now.rules.now) (option_map (λ q. q.now) query.entry) }
    {
        if self.rules.queries { query } else { None }
    }

    /// Whether a server accepts the spelling of a URL for which this one is looked up.
    fn is_accepted(&self, plain: &str, url: &str) -> bool
        ensures { result ≡ is_accepted (host_of self.now.rules.now) plain.now url.now }
    {
        !self.rules.exact || plain == url
    }
}

/// Whether a text has, before its fragment, an escape, a query, a backslash, or two slashes in a row in addition to those of a host: its
/// first slashes, at its beginning or after a colon.
fn has_mark(text: &[u8]) -> bool {
    let mut is_first = true;
    for (at, byte) in text.iter().enumerate() {
        match *byte {
            b'#' => return false,
            b'?' | b'%' | b'\\' => return true,
            b'/' => {
                let is_host = is_first && matches!(text.get(at.wrapping_sub(1)), None | Some(b':'));
                if !is_host && text.get(at.wrapping_add(1)) == Some(&b'/') {
                    return true;
                }
                is_first = false;
            }
            _ => {}
        }
    }
    false
}

/// The URL without its query.
pub fn before_query(url: &str) -> &str
    ensures { result.now ≡ before_query url.now }
{
    match url.split_once('?') {
        Some((path, _)) => path,
        None => url,
    }
}

/// The URL with `.html` after its path.
pub(crate) fn with_html(alloc: Global, url: &str) -> Result<String, AllocError>
    ensures { IfOk result (λ html. string_bytes html ≡ with_html url.now) }
{
    let mut html = String::new(alloc);
    match url.split_once('?') {
        Some((path, query)) => {
            html.push_str(path)?;
            html.push_str(".html?")?;
            html.push_str(query)?;
        }
        None => {
            html.push_str(url)?;
            html.push_str(".html")?;
        }
    }
    Ok(html)
}
