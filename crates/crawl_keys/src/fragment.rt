//! Links that differ only in their fragments.
ghost use Rattle.std.specs.Prelude.{◌≡◌, ◌≤◌, ℕ, List, length, true};
ghost use Rattle.std.specs.List.{before_first};
ghost use Rattle.crawl_keys.specs.CanonicalText.{resolve};
ghost use Rattle.crawl_keys.specs.Folders.{is_of_folder};
ghost use Rattle.crawl_keys.specs.Fragments as spec;

use crate::plain::len_before;

/// The text of a link before its fragment.
///
/// It leads to the same canonical URL as the whole text, on every page. So links to the anchors of one page have the same text. The
/// text stays whole if its fragment comes first, or directly after a space or a control character.
///
/// ```rust
/// assert_eq!(rt; before_fragment("use.html#run"), "use.html");
/// assert_eq!(rt; before_fragment("#run"), "#run");
/// ```
pub fn before_fragment(text: &str) -> &str
    ensures value { result.now ≡ spec.before_fragment text.now }
    ensures target { (base : List ℕ) → resolve base result.now ≡ resolve base text.now }
    ensures folder { is_of_folder text.now ≡ true → is_of_folder result.now ≡ true }
    ensures within { length result.now ≤ length text.now }
{
    let front = before_sign(text);
    if ends_visibly(front) { front } else { text }
}

/// The text before the first `#`.
fn before_sign(text: &str) -> &str
    ensures { result.now ≡ before_first spec.is_number_sign text.now }
{
    &text[..len_before(text.as_bytes(), b'#')]
}

/// Whether the text ends with a byte that a URL parser does not trim: not a space or a control byte. An empty text does not.
fn ends_visibly(text: &str) -> bool
    ensures { result ≡ spec.ends_visibly text.now }
{
    match text.as_bytes() {
        [.., last] => *last > b' ',
        [] => false,
    }
}
