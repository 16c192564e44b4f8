//! The rules by which names become pages.
ghost use Rattle.std.specs.Prelude.{◌≡◌, None, if◌then◌else◌, option_map};
ghost use Rattle.site_files.specs.Server.{before_query, query_of};

/// The rules by which names become pages.
#[derive(Debug, Drop)]
pub struct Rules {
    /// The names of index files. The page of a folder is the file with the first of these names that the folder has.
    pub index_files: Vec<String>,
    /// Whether a `?` in a file name is the start of a query, as `wget -r` writes it.
    pub queries: bool,
    /// Whether only the exact spelling of a page's URL is accepted.
    pub exact: bool,
    /// Whether a path without a page is looked up again with `.html` added, unless it ends with a slash.
    pub html_fallback: bool,
    /// Whether anchors and links to anchors are read.
    pub anchors: bool,
    /// Whether the positions of links are kept.
    pub places: bool,
    /// Whether the links of style sheets, and those of styles in documents, are read.
    pub styles: bool,
    /// Whether a file of unknown kind is an HTML document if it begins like one.
    pub sniff: bool,
    /// Whether an absolute path is below the folder, as in a check without BASE.
    pub rooted: bool,
    /// Whether symbolic links that lead out of the folder are followed.
    pub follow: bool,
    /// The number of threads that make pages; 0 means 1.
    pub threads: usize,
}

/// What is before the first `?` of a text, and what is after it, if there is one and a query is read there.
pub fn split_name(name: &str, queries: bool) -> (&str, Option<&str>)
    ensures path { result.0.now ≡ (if queries then before_query name.now else name.now) }
    ensures query { option_map (λ q. q.now) result.1 ≡ (if queries then query_of name.now else None) }
{
    if !queries {
        return (name, None);
    }
    match name.split_once('?') {
        Some((path, query)) => (path, Some(query)),
        None => (name, None),
    }
}
