//! What is shown of texts. The expected texts are written by hand.
use shown_text::{put_shown, put_shown_char, shown, shown_lines};
use std::alloc::Global;

/// A text, and what is shown of it within a line and as several lines.
type Row = (&'static str, &'static str, &'static str);

const ROWS: &[Row] = &[
    ("", "", ""),
    ("a b~", "a b~", "a b~"),
    (
        "\u{0}\t\r\u{1f} ",
        "\\u{0}\\u{9}\\u{d}\\u{1f} ",
        "\\u{0}\\u{9}\\u{d}\\u{1f} ",
    ),
    ("a\nb\n", "a\\u{a}b\\u{a}", "a\nb\n"),
    (
        "\u{1b}[31mred\u{7}\u{7f}",
        "\\u{1b}[31mred\\u{7}\\u{7f}",
        "\\u{1b}[31mred\\u{7}\\u{7f}",
    ),
    // C1, and the characters before and after it
    (
        "~\u{80}\u{9b}\u{9f}\u{a0}\u{bf}\u{c0}é",
        "~\\u{80}\\u{9b}\\u{9f}\u{a0}\u{bf}\u{c0}é",
        "~\\u{80}\\u{9b}\\u{9f}\u{a0}\u{bf}\u{c0}é",
    ),
    // a next line, and characters whose numbers are bytes of the first character
    ("\u{85}", "\\u{85}", "\\u{85}"),
    (
        "\u{c2}\u{9b}\u{84} z",
        "\u{c2}\\u{9b}\\u{84} z",
        "\u{c2}\\u{9b}\\u{84} z",
    ),
    (
        "\u{201b}\u{202e}x\u{2066}y\u{2069}",
        "\u{201b}\\u{202e}x\\u{2066}y\\u{2069}",
        "\u{201b}\\u{202e}x\\u{2066}y\\u{2069}",
    ),
    // the separators and bidirectional controls, and the characters before and after them
    (
        "\u{2027}\u{2028}\u{2029}\u{202a}\u{202e}\u{202f}",
        "\u{2027}\\u{2028}\\u{2029}\\u{202a}\\u{202e}\u{202f}",
        "\u{2027}\\u{2028}\\u{2029}\\u{202a}\\u{202e}\u{202f}",
    ),
    (
        "\u{2065}\u{2066}\u{2069}\u{206a}",
        "\u{2065}\\u{2066}\\u{2069}\u{206a}",
        "\u{2065}\\u{2066}\\u{2069}\u{206a}",
    ),
    // characters that begin or end with the same bytes, and longer ones
    (
        "“€” ̀ⴀ\u{1028}\u{10ffff}😀",
        "“€” ̀ⴀ\u{1028}\u{10ffff}😀",
        "“€” ̀ⴀ\u{1028}\u{10ffff}😀",
    ),
    // a backslash is not escaped
    ("\\u{1b}", "\\u{1b}", "\\u{1b}"),
];

fn is_shown(alloc: Global, row: &Row) -> Option<bool> {
    let (text, line, lines) = *row;
    let one = shown(alloc, text).ok()?;
    let several = shown_lines(alloc, text).ok()?;
    Some(one.as_str() == line && several.as_str() == lines && is_put(alloc, text, line)?)
}

/// Whether the text is appended as a whole, and character by character, after what is there.
fn is_put(alloc: Global, text: &str, line: &str) -> Option<bool> {
    let mut whole = Vec::new(alloc);
    put_shown(&mut whole, "<").ok()?;
    put_shown(&mut whole, text).ok()?;
    let mut each = Vec::new(alloc);
    put_shown_char(&mut each, '<').ok()?;
    for c in text.chars() {
        put_shown_char(&mut each, c).ok()?;
    }
    Some(whole == each && whole.as_slice().get(1..) == Some(line.as_bytes()))
}

#[test]
fn texts_are_shown(rt: HostRuntime) {
    for row in ROWS {
        assert_eq!(rt; is_shown(rt.alloc(), row), Some(true));
    }
}
