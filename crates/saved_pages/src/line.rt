//! The content of a line of a saved web.
ghost use Rattle.std.specs.Prelude.{◌≡◌};
ghost use Rattle.saved_pages.specs.WebLines.{pointed, line_of_text, line_of};

use text_lines::split_space;

/// The content of a line after the first.
#[derive(Clone, Copy)]
pub enum Line<T> {
    /// `page URL`: a page, with the text of its URL.
    Page(T),
    /// `link TEXT`: a link of the last page, with its text, which may be empty.
    Link(T),
    /// `moved TEXT`: the URL to which the last page moved, as its text, which may be empty.
    Moved(T),
    /// An empty line.
    Empty,
    /// Anything else.
    Other,
}

/// Returns the content of a line with this text.
pub fn line_of(text: &str) -> Line<&str>
    ensures text { pointed result ≡ line_of_text text.now }
    ensures line { pointed result ≡ line_of text.now }
{
    // Most lines are links, so they are tested for first.
    match text.strip_prefix("link ") {
        Some(link) => Line::Link(link),
        None => by_first_word(text),
    }
}

/// Returns the content of a line by the text before its first space.
fn by_first_word(text: &str) -> Line<&str>
    ensures { pointed result ≡ line_of_text text.now }
{
    match split_space(text) {
        Some(("page", url)) => Line::Page(url),
        Some(("link", link)) => Line::Link(link),
        Some(("moved", to)) => Line::Moved(to),
        None if text.is_empty() => Line::Empty,
        _ => Line::Other,
    }
}
