//! The kind of a file, by its name or its media type.
ghost use Rattle.std.specs.Prelude.{◌≡◌, option_map};
ghost use Rattle.std.specs.List.{before_first, list_all};
ghost use Rattle.site_files.specs.Kinds.{begins_with, is_among, is_dot, is_feed, is_feed_kind, is_feed_name, is_feed_only, is_feed_type, is_home, is_home_name, is_html, is_other, is_packed, is_page, is_semicolon, is_sitemap, is_start, is_start_with, is_unknown, is_url_list, is_xhtml, kind_by, kind_of, kind_of_type, kind_with, last_name, may_be_page, suffix_of};
ghost use Rattle.url.specs.Input.{rsplit_once};

/// The kind of a file that can have links.
#[derive(Clone, Copy, Debug, PartialEq, Eq)]
pub enum FileKind {
    /// An HTML document.
    Html,
    /// An XHTML document.
    Xml,
    /// An SVG picture, which is XML too and can have links and anchors.
    Svg,
    /// A style sheet.
    Style,
    /// XML that can be a sitemap, an index of sitemaps, or an RSS or Atom feed.
    Feed,
    /// A sitemap with one URL per line.
    UrlList,
    /// An HTML document if its first bytes are those of one.
    Unknown,
}

/// The suffixes of files without links: those in Python's own table of media types that are not of another kind.
const OTHERS: &str =
    "3g2 3gp 3gpp 3gpp2 a aac adts ai aif aifc aiff ass au avi avif bat bcpio bin bmp c cdf cpio csh csv dll doc dot dvi eml eps etx exe gif gtar h h5 hdf heic heif ico ief jpe jpeg jpg js json ksh latex loas m1v m3u m3u8 man me mht mhtml mif mjs mov movie mp2 mp3 mp4 mpa mpe mpeg mpg ms n3 nc nq nt nws o obj oda opus p12 p7c pbm pdf pfx pgm pl png pnm pot ppa ppm pps ppt ps pwz py pyc pyo qt ra ram ras rdf rgb roff rtx sgm sgml sh shar snd so src srt sv4cpio sv4crc swf t tar tcl tex texi texinfo tif tiff tr trig tsv txt ustar vcf vtt wasm wav webm webmanifest wiz wsdl xbm xlb xls xpdl xpm xsl xwd zip svgz tgz taz tz tbz2 txz";

/// The kind of the file with this path, or `None` if it has no links.
pub(crate) fn kind_of(path: &[u8]) -> Option<FileKind>
    ensures { result ≡ kind_of path.now }
{
    match suffix_of(path) {
        Some(suffix) => kind_with(last_name(path), suffix),
        None => Some(FileKind::Unknown),
    }
}

/// The kind of a file with this name and suffix.
fn kind_with(name: &[u8], suffix: &[u8]) -> Option<FileKind>
    ensures { result ≡ kind_with name.now suffix.now }
{
    if is_url_list(name, suffix) {
        Some(FileKind::UrlList)
    } else {
        kind_by(suffix)
    }
}

/// Whether a file with this name and suffix is a sitemap with one URL per line.
fn is_url_list(name: &[u8], suffix: &[u8]) -> bool
    ensures { result ≡ is_url_list name.now suffix.now }
{
    is_sitemap(name) && suffix.eq_ignore_ascii_case(b"txt")
}

/// The kind of a file with this suffix. Case matters only for packed files.
fn kind_by(suffix: &[u8]) -> Option<FileKind>
    ensures { result ≡ kind_by suffix.now }
{
    if is_html(suffix) {
        Some(FileKind::Html)
    } else if is_xhtml(suffix) {
        Some(FileKind::Xml)
    } else if suffix.eq_ignore_ascii_case(b"svg") {
        Some(FileKind::Svg)
    } else if suffix.eq_ignore_ascii_case(b"css") {
        Some(FileKind::Style)
    } else if is_feed(suffix) {
        Some(FileKind::Feed)
    } else if is_packed(suffix) || is_other(suffix) {
        None
    } else {
        Some(FileKind::Unknown)
    }
}

/// Whether the suffix is that of HTML.
fn is_html(suffix: &[u8]) -> bool
    ensures { result ≡ is_html suffix.now }
{
    suffix.eq_ignore_ascii_case(b"html") || suffix.eq_ignore_ascii_case(b"htm")
}

/// Whether the suffix is that of XHTML.
fn is_xhtml(suffix: &[u8]) -> bool
    ensures { result ≡ is_xhtml suffix.now }
{
    suffix.eq_ignore_ascii_case(b"xhtml") || suffix.eq_ignore_ascii_case(b"xht")
}

/// Whether the suffix is that of a feed, or of other XML.
fn is_feed(suffix: &[u8]) -> bool
    ensures { result ≡ is_feed suffix.now }
{
    is_feed_only(suffix) || suffix.eq_ignore_ascii_case(b"xml")
}

/// Whether the suffix is one that only feeds have.
fn is_feed_only(suffix: &[u8]) -> bool
    ensures { result ≡ is_feed_only suffix.now }
{
    suffix.eq_ignore_ascii_case(b"rss") || suffix.eq_ignore_ascii_case(b"atom")
}

/// Whether the suffix is that of a packed file.
fn is_packed(suffix: &[u8]) -> bool
    ensures { result ≡ is_packed suffix.now }
{
    suffix == b"gz".as_slice()
        || suffix == b"Z".as_slice()
        || suffix == b"bz2".as_slice()
        || suffix == b"xz".as_slice()
        || suffix == b"br".as_slice()
}

/// Whether a file of this kind is known to be a page: an HTML or XHTML document.
pub(crate) fn is_page(kind: FileKind) -> bool
    ensures { result ≡ is_page kind }
{
    matches!(kind, FileKind::Html | FileKind::Xml)
}

/// Whether a file of this kind can be a sitemap or a feed.
pub(crate) fn is_feed_kind(kind: FileKind) -> bool
    ensures { result ≡ is_feed_kind kind }
{
    matches!(kind, FileKind::Feed | FileKind::UrlList)
}

/// Whether the kind of a file follows from its first bytes only.
fn is_unknown(kind: FileKind) -> bool
    ensures { result ≡ is_unknown kind }
{
    matches!(kind, FileKind::Unknown)
}

/// Whether the suffix is one of `OTHERS`.
fn is_other(suffix: &[u8]) -> bool
    ensures { result ≡ is_other suffix.now }
{
    is_among(suffix, OTHERS)
}

/// Whether the suffix is one of these, which are separated by spaces.
fn is_among(suffix: &[u8], suffixes: &str) -> bool
    ensures { result ≡ is_among suffix.now suffixes.now }
{
    suffixes
        .split(' ')
        .any(|one| suffix.eq_ignore_ascii_case(one.as_bytes()))
}

/// The kind of a file with this media type, which may have parameters, or `None` if it has no links. Case does not matter.
pub(crate) fn kind_of_type(text: &str) -> Option<FileKind>
    ensures { result ≡ kind_of_type text.now }
{
    let name = media_type(text);
    if name.eq_ignore_ascii_case("text/html") {
        Some(FileKind::Html)
    } else if name.eq_ignore_ascii_case("application/xhtml+xml") {
        Some(FileKind::Xml)
    } else if name.eq_ignore_ascii_case("image/svg+xml") {
        Some(FileKind::Svg)
    } else if name.eq_ignore_ascii_case("text/css") {
        Some(FileKind::Style)
    } else if is_feed_type(name) {
        Some(FileKind::Feed)
    } else {
        None
    }
}

/// Whether the media type is that of a feed, or of other XML.
fn is_feed_type(name: &str) -> bool
    ensures { result ≡ is_feed_type name.now }
{
    name.eq_ignore_ascii_case("application/xml")
        || name.eq_ignore_ascii_case("text/xml")
        || name.eq_ignore_ascii_case("application/rss+xml")
        || name.eq_ignore_ascii_case("application/atom+xml")
}

/// A media type without its parameters.
fn media_type(text: &str) -> &str
    ensures { result.now ≡ before_first is_semicolon text.now }
{
    match text.split_once(';') {
        Some((name, _)) => name,
        None => text,
    }
}

/// Whether a check starts at the sitemap or the feed with this path, by its name. Case does not matter.
pub(crate) fn is_start(path: &[u8]) -> bool
    ensures { result ≡ is_start path.now }
{
    match suffix_of(path) {
        Some(suffix) => is_start_with(last_name(path), suffix),
        None => false,
    }
}

/// Whether a check starts at the sitemap or the feed with this name and suffix.
fn is_start_with(name: &[u8], suffix: &[u8]) -> bool
    ensures { result ≡ is_start_with name.now suffix.now }
{
    is_sitemap(name) || is_feed_only(suffix) || is_feed_name(name)
}

/// Whether the name is a usual one of a feed.
fn is_feed_name(name: &[u8]) -> bool
    ensures { result ≡ is_feed_name name.now }
{
    name.eq_ignore_ascii_case(b"feed.xml")
        || name.eq_ignore_ascii_case(b"rss.xml")
        || name.eq_ignore_ascii_case(b"atom.xml")
        || name.eq_ignore_ascii_case(b"index.xml")
}

/// Whether the name begins as that of a sitemap does.
pub(crate) fn is_sitemap(name: &[u8]) -> bool
    ensures { result ≡ is_sitemap name.now }
{
    begins_with(name, b"sitemap")
}

/// Whether a name begins with a text. Case does not matter.
fn begins_with(name: &[u8], front: &[u8]) -> bool
    ensures { result ≡ begins_with front.now name.now }
{
    name.len() >= front.len() && name[..front.len()].eq_ignore_ascii_case(front)
}

/// Whether the file with this path may be the page of its folder under a rule that names it: it has a usual name of an index file, and
/// it is a page or of unknown kind.
pub(crate) fn is_home(path: &[u8]) -> bool
    ensures { result ≡ is_home path.now }
{
    is_home_name(last_name(path)) && may_be_page(path)
}

/// Whether the name begins as that of an index file usually does.
fn is_home_name(name: &[u8]) -> bool
    ensures { result ≡ is_home_name name.now }
{
    begins_with(name, b"index.") || begins_with(name, b"default.") || begins_with(name, b"home.")
}

/// Whether the file with this path is a page or of unknown kind.
fn may_be_page(path: &[u8]) -> bool
    ensures { result ≡ may_be_page path.now }
{
    match kind_of(path) {
        Some(kind) => is_page(kind) || is_unknown(kind),
        None => false,
    }
}

/// What comes after the last dot of a file's name, if something other than dots comes before it.
fn suffix_of(path: &[u8]) -> Option<&[u8]>
    ensures { option_map (λ suffix. suffix.now) result ≡ suffix_of path.now }
{
    let (Some(stem), suffix) = rsplit_once(last_name(path), b'.') else {
        return None;
    };
    if is_dots(stem) { None } else { Some(suffix) }
}

/// The last name on a path.
pub(crate) fn last_name(path: &[u8]) -> &[u8]
    ensures { result.now ≡ last_name path.now }
{
    let (_, name) = rsplit_once(path, b'/');
    name
}

/// Whether a text has only dots.
fn is_dots(text: &[u8]) -> bool
    ensures { result ≡ list_all is_dot text.now }
{
    text.iter().all(|byte| *byte == b'.')
}

/// What is before the last separator of a text, if there is one, and what is after it.
fn rsplit_once(text: &[u8], separator: u8) -> (Option<&[u8]>, &[u8])
    ensures before { option_map (λ before. before.now) result.0 ≡ (rsplit_once separator text.now).0 }
    ensures after { result.1.now ≡ (rsplit_once separator text.now).1 }
{
    match text.iter().rposition(|byte| *byte == separator) {
        Some(at) => (Some(&text[..at]), &text[at + 1..]),
        None => (None, text),
    }
}
