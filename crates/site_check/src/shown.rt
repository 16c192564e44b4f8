//! How a URL is reported.
ghost use Rattle.std.specs.Prelude.{◌≡◌, ◌∷◌, ◌++◌, [], length, drop, if◌then◌else◌};
ghost use Rattle.site_check.specs.Broken.{begins, or_top, shown};

/// The URL without the front, if it begins with that.
pub(crate) fn shown<'a>(front: &str, url: &'a str) -> &'a str
    ensures { result.now ≡ shown front.now url.now }
{
    or_top(without(front, url))
}

/// Returns the URL without the front, or unchanged if it does not begin with that.
#[tactic(auto, using(crate::proofs::Fronts::cut_front, crate::proofs::Fronts::no_front))]
fn without<'a>(front: &str, url: &'a str) -> &'a str
    ensures { result.now ≡ (if begins front.now url.now then drop (length front.now) url.now else url.now) }
{
    match url.strip_prefix(front) {
        Some(rest) => rest,
        None => url,
    }
}

/// Returns the text, or `./` for an empty text, which is the top of the site.
fn or_top(text: &str) -> &str
    ensures { result.now ≡ or_top text.now }
{
    if text.is_empty() { "./" } else { text }
}

/// Whether the text begins with the front.
pub(crate) fn begins(front: &str, text: &str) -> bool
    ensures { result ≡ begins front.now text.now }
{
    text.as_bytes().starts_with(front.as_bytes())
}

/// Whether the text begins with a folder and a slash.
#[tactic(auto, using(crate::proofs::Outsides::on_host, crate::proofs::Outsides::off_host))]
pub(crate) fn is_below(folder: &str, text: &str) -> bool
    ensures { result ≡ begins (folder.now ++ 47 ∷ []) text.now }
{
    match text.strip_prefix(folder) {
        Some(rest) => begins("/", rest),
        None => false,
    }
}
