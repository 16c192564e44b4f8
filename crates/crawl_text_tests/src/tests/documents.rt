//! The links of documents in HTML and in XHTML, of their styles and of style sheets, with their positions, and the ids. No command
//! shows all of them.
ghost use Rattle.std.specs.Prelude.{map};

use html_links::{DocumentIds, Links, Syntax, read_page, read_style};
use std::alloc::{AllocError, Global};

/// Texts, each with the position at which its value begins. The position of an id is 0.
#[derive(Drop)]
struct Texts {
    alloc: Global,
    texts: Vec<(usize, Vec<u8>)>,
}

impl Texts {
    fn new(alloc: Global) -> Texts {
        Texts {
            alloc,
            texts: Vec::new(alloc),
        }
    }
}

impl Links for Texts {
    ghost texts = { λ all. map (λ text. text.1.items) all.texts.items };

    ghost positions = { λ all. map (λ text. text.0) all.texts.items };

    fn push(&mut self, position: usize, text: &[u8]) -> Result<(), AllocError> {
        self.texts
            .push((position, Vec::from_slice(self.alloc, text)?))?;
        Ok(())
    }
}

impl DocumentIds for Texts {
    ghost texts = { λ all. map (λ text. text.1.items) all.texts.items };

    fn push(&mut self, text: &[u8]) -> Result<(), AllocError> {
        self.texts.push((0, Vec::from_slice(self.alloc, text)?))?;
        Ok(())
    }
}

/// A document, its links, each after its position, and its ids.
type Row = (
    &'static str,
    &'static [(usize, &'static str)],
    &'static [&'static str],
);

const HTML: &[Row] = &[
    (
        "<a href=x id=i name=n><p id=\"\">",
        &[(8, "x")],
        &["i", "n", ""],
    ),
    (
        "<a href = '&amp;'><img src=\"y\" srcset='z 2x'>",
        &[(11, "&"), (28, "y"), (39, "z")],
        &[],
    ),
    // In SVG and MathML no element has text as its content, and a tag may close itself.
    ("<svg><title><a href=x>", &[(20, "x")], &[]),
    (
        "<svg><script/><use xlink:href=\"#i\"/><g id=i>",
        &[(31, "#i")],
        &["i"],
    ),
    ("<math><mi href=x><title><a href=y>", &[(15, "x")], &[]),
    ("<svg><![CDATA[<a href=x>]]><a href=y>", &[(35, "y")], &[]),
    ("<title/><a href=x>", &[], &[]),
];

const XHTML: &[Row] = &[
    // A tag that closes itself has no content.
    (
        "<title/><script src=\"x\"/><textarea/><a href=\"y\"/>",
        &[(21, "x"), (45, "y")],
        &[],
    ),
    (
        "<a id=\"x\"/><style/><template/><p id=\"y\">",
        &[],
        &["x", "y"],
    ),
    // No element has text as its content, and CDATA sections are text.
    ("<title>t<a href=\"x\"/></title>", &[(17, "x")], &[]),
    (
        "<script><![CDATA[<a href=\"x\"/>]]></script><a href=\"y\"/>",
        &[(51, "y")],
        &[],
    ),
    (
        "<![CDATA[]]]]><a href=\"x\"/>]]><![CDAT[><a href=\"y\"/>",
        &[(23, "x"), (48, "y")],
        &[],
    ),
    (
        "<template><a href=\"x\"/></template><a href=\"y\"/>",
        &[(43, "y")],
        &[],
    ),
    // A file of SVG.
    (
        "<svg><defs><g id=\"i\"/></defs><feImage href=\"x\"/><use xlink:href=\"#i\"/></svg>",
        &[(44, "x"), (65, "#i")],
        &["i"],
    ),
];

const STYLED: &[Row] = &[
    (
        "<p style='a:url(b)'><style>@import 'c';url( \"d\" )/* url(e) */</style>",
        &[(16, "b"), (36, "c"), (45, "d")],
        &[],
    ),
    (
        "<style>url(a</style><a href=b>",
        &[(11, "a"), (28, "b")],
        &[],
    ),
    (
        "<style>@import\"a\";@import/*'n'*/'b';@imports 'n';c:url(d/*e);f:'/*';g:url(h) \"url(n)\"</style>",
        &[(15, "a"), (33, "b"), (55, "d/*e"), (74, "h")],
        &[],
    ),
    // A value with character references has one position. The links of styles are before the others of the tag.
    (
        "<a href=a style=\"b:url('&amp;');c:url(d)\">",
        &[(17, "&"), (17, "d"), (8, "a")],
        &[],
    ),
    (
        "<a href=a style = b:url(\"c\")>",
        &[(25, "c"), (8, "a")],
        &[],
    ),
    // In SVG a style sheet ends at the first `<`.
    (
        "<svg><style>url(a)<a href=b></style><style/>url(c)",
        &[(16, "a"), (26, "b")],
        &[],
    ),
    ("<style>url(a)</styles>url(b", &[(11, "a"), (26, "b")], &[]),
];

const SHEETS: &[(&str, &[(usize, &str)])] = &[
    (
        "@import \"a.css\"; p { background: url(b.png) url( 'c' ) }",
        &[(9, "a.css"), (37, "b.png"), (50, "c")],
    ),
    ("url('')url()@import''", &[(5, ""), (20, "")]),
];

fn are_links(found: &Texts, begin: usize, links: &[(usize, &str)]) -> bool {
    for (one, (index, text)) in found.texts.iter().zip(links) {
        if one.0 != begin.wrapping_add(*index) || one.1.as_slice() != text.as_bytes() {
            return false;
        }
    }
    found.texts.len() == links.len()
}

fn are_ids(found: &Texts, ids: &[&str]) -> bool {
    for (one, id) in found.texts.iter().zip(ids) {
        if one.1.as_slice() != id.as_bytes() {
            return false;
        }
    }
    found.texts.len() == ids.len()
}

/// Documents of this syntax, of whose styles the links are read or not.
const DOCUMENTS: &[(Syntax, bool, &[Row])] = &[
    (Syntax::Html, false, HTML),
    (Syntax::Xhtml, false, XHTML),
    (Syntax::Html, true, STYLED),
];

fn has_row(alloc: Global, syntax: Syntax, styles: bool, row: &Row) -> bool {
    let (document, links, ids) = row;
    let mut found = Texts::new(alloc);
    let mut found_ids = Texts::new(alloc);
    let read = read_page(
        alloc,
        syntax,
        document.as_bytes(),
        styles,
        &mut found,
        &mut found_ids,
    );
    match read {
        Ok(_) => are_links(&found, 0, links) && are_ids(&found_ids, ids),
        Err(_) => false,
    }
}

#[test]
fn documents_and_their_styles(rt: HostRuntime) {
    for (syntax, styles, rows) in DOCUMENTS {
        for row in *rows {
            assert!(rt; has_row(rt.alloc(), *syntax, *styles, row), "{}", row.0);
        }
    }
}

fn has_sheet(alloc: Global, sheet: &str, begin: usize, links: &[(usize, &str)]) -> bool {
    let mut found = Texts::new(alloc);
    match read_style(
        alloc,
        sheet.as_bytes(),
        begin.saturating_add(sheet.len()),
        &mut found,
    ) {
        Ok(()) => are_links(&found, begin, links),
        Err(_) => false,
    }
}

#[test]
fn links_of_style_sheets(rt: HostRuntime) {
    for (sheet, links) in SHEETS {
        assert!(rt; has_sheet(rt.alloc(), sheet, 0, links), "{sheet}");
        assert!(rt; has_sheet(rt.alloc(), sheet, 9, links), "{sheet}");
    }
}
