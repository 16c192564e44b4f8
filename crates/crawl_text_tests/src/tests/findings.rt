//! A report of one broken link as annotations, for folders that no command can have, too. `tests/check.py` and `tests/cases/` compare all
//! forms of reports.
use check_report::{Broken, Contents, Findings, Kind, Lists, Place, Totals, print_annotations};
use std::alloc::{AllocError, Global};

/// Totals, which annotations do not have.
const TOTALS: Totals = Totals {
    pages: 1,
    files: 0,
    aliases: 0,
    links: 1,
    broken_links: 1,
    broken_urls: 1,
    broken_anchors: 0,
    invalid_links: 0,
    leaving_links: 0,
    moved: 0,
};

/// A folder, and the path of its file `a.html` in annotations.
const FOLDERS: &[(&str, &str)] = &[
    ("", "a.html"),
    (".", "a.html"),
    ("./", "a.html"),
    ("site", "site/a.html"),
    ("site/", "site/a.html"),
    ("./site", "site/a.html"),
    ("../s,t", "../s%2Ct/a.html"),
    ("/", "/a.html"),
];

/// The location of a link.
fn place(alloc: Global) -> Result<Place, AllocError> {
    Ok(Place {
        file: String::from_str(alloc, "a.html")?,
        line: 3,
        column: 1,
        written: None,
    })
}

/// A missing page with this link.
fn gone(alloc: Global, place: Place) -> Option<Broken> {
    let target = String::from_str(alloc, "gone.html").ok()?;
    let mut places = Vec::new(alloc);
    places.push(place).ok()?;
    Some(Broken {
        target,
        kind: Kind::NoPage,
        pages: 1,
        places,
        same_name: None,
        hint: None,
    })
}

fn annotated(alloc: Global, broken: &[Broken], folder: &str) -> Option<Vec<u8>> {
    let findings = Findings {
        base: "",
        totals: TOTALS,
        broken,
        worst: &[],
        redirects: &[],
        unreached: &[],
        unlisted: &[],
        unused_ignores: &[],
        base_hint: None,
    };
    let contents = Contents {
        lists: Lists::default(),
        external: None,
        folder,
        source_url: "",
    };
    print_annotations(alloc, &findings, contents).ok()
}

fn is_at(annotation: &[u8], file: &str) -> bool {
    let Some(at) = annotation.strip_prefix(b"::error file=") else {
        return false;
    };
    match at.strip_prefix(file.as_bytes()) {
        Some(rest) => rest == b",line=3,col=1::gone.html: no such page\n".as_slice(),
        None => false,
    }
}

/// The first of these folders in whose annotation the file has another path.
fn first_wrong(
    alloc: Global,
    broken: &[Broken],
    folders: &'static [(&'static str, &'static str)],
) -> Option<&'static str> {
    for (folder, file) in folders {
        let is_named = match annotated(alloc, broken, folder) {
            Some(text) => is_at(text.as_slice(), file),
            None => false,
        };
        if !is_named {
            return Some(*folder);
        }
    }
    None
}

#[test]
fn annotates_files_of_folders(rt: HostRuntime) {
    let alloc = rt.alloc();
    let broken = match place(alloc) {
        Ok(place) => gone(alloc, place),
        Err(_) => None,
    };
    match broken {
        Some(broken) => assert_eq!(rt; first_wrong(alloc, &[broken], FOLDERS), None),
        None => assert!(rt; false, "out of memory"),
    }
}
