//! Tests of what no contract says of keys: that each call succeeds if there is memory, and that the definitions are the standard's.
use crawl_keys::*;
use std::alloc::Global;
use std::cmp::Ordering;
use std::collections::HashSet;

/// A host key and its hash.
const HASHES: &[(&str, u32)] = &[
    ("a.test", 2_823_066_111),
    ("b.test", 2_851_695_262),
    ("c.test", 2_880_324_413),
    ("d.test", 2_908_953_564),
];

#[test]
fn hash_table(rt: HostRuntime) {
    for row in HASHES {
        assert!(rt; hash(row.0) == row.1, "{}", row.0);
    }
    let are_numbers = !can_assign(0)
        && can_assign(1)
        && can_assign(SUBQUEUES_LIMIT)
        && !can_assign(513);
    assert!(rt; are_numbers, "numbers of subqueues");
}

/// Some of the URLs that were picked to have the hash 0, for tests with many of them.
const PICKED: &[&str] = &[
    "http://a.test/000000000000010355el8CGH)V00000000",
    "http://a.test/000000000000010355el8CGH)V00000199",
    "http://a.test/000000000000010355el8CGH)V00000399",
];

#[test]
fn urls_of_one_hash(rt: HostRuntime) {
    for text in PICKED {
        assert!(rt; has_hash_0(rt.alloc(), text), "{text}");
    }
}

fn has_hash_0(alloc: Global, text: &str) -> bool {
    match canonical(alloc, text) {
        Ok(url) => url.as_str() == text && url.text_hash() == 0,
        Err(_) => false,
    }
}

/// A link, and the URL that it leads to or the reason why it leads to none.
type Row = (&'static str, &'static str);

const LINKS: &[Row] = &[
    ("../f#g", "http://a.test/f"),
    ("?z", "http://a.test/d/e?z"),
    ("//b.test", "http://b.test/"),
    ("#x", "http://a.test/d/e?q"),
    ("", "http://a.test/d/e?q"),
    ("HTTP://B.Test:80/X?Y", "http://b.test/X?Y"),
    ("hTTps://b.test:443/x#Y", "https://b.test/x"),
    ("https://B.test:80/", "https://b.test:80/"),
    ("https://b.test", "https://b.test/"),
    ("/x/./f", "http://a.test/x/f"),
    ("/x/../../f", "http://a.test/f"),
    ("x/y/../f?./z", "http://a.test/d/x/f?./z"),
    ("x/y/../../../f", "http://a.test/f"),
    ("x/..", "http://a.test/d/"),
    ("/x?/../f", "http://a.test/x?/../f"),
    ("mailto:x", "not http or https"),
    ("Tel:1", "not http or https"),
    ("FTP://b.test/", "not http or https"),
    ("http://[", "not a URL"),
];

#[test]
fn resolved_links(rt: HostRuntime) {
    for row in LINKS {
        assert!(rt; leads(rt.alloc(), row), "{}", row.0);
    }
}

// Whether the link leads there from one page, by its URL and by its base.
fn leads(alloc: Global, row: &Row) -> bool {
    let Ok(page) = canonical(alloc, "http://a.test/d/e?q") else {
        return false;
    };
    match Base::new(alloc, &page) {
        Ok(base) => {
            is_expected(resolve(alloc, &page, row.0), row.1)
                && is_expected(base.resolve(alloc, row.0), row.1)
        }
        Err(_) => false,
    }
}

fn is_expected(found: Result<CanonUrl, KeyError>, text: &str) -> bool {
    match found {
        Ok(url) => url.as_str() == text,
        Err(KeyError::NotUrl) => text == "not a URL",
        Err(KeyError::NotHttp) => text == "not http or https",
        Err(KeyError::NoMemory) => false,
    }
}

/// Two pages, and whether both lie in one folder.
type Pair = (&'static str, &'static str, bool);

const PAIRS: &[Pair] = &[
    ("http://a.test/a/b", "http://a.test/a/c?q", true),
    ("http://a.test/a/", "http://a.test/a/x", true),
    ("http://a.test/a/b?q", "http://a.test/a/b?r", true),
    ("http://a.test/a/b?q=/x/y", "http://a.test/a/c", true),
    ("http://a.test", "http://a.test/x", true),
    (
        "http://u:p@a.test:8080/a/b",
        "http://u:p@a.test:8080/a/",
        true,
    ),
    ("http://[::1]/a/b", "http://[::1]:80/a/c", true),
    ("http://a.test/a", "http://a.test/a/x", false),
    ("http://a.test/a/b", "http://a.test/b/b", false),
    ("http://a.test/a//b", "http://a.test/a/b", false),
    ("http://a.test/", "http://a.test/b/", false),
    ("http://a.test/a/b", "http://b.test/a/b", false),
    ("http://a.test/a/b", "https://a.test/a/b", false),
    ("http://a.test/a/b", "http://a.test:8080/a/b", false),
    ("http://a.test/a/b", "http://u@a.test/a/b", false),
    ("http://u@a.test/a/b", "http://u:p@a.test/a/b", false),
];

#[test]
fn pages_of_a_folder(rt: HostRuntime) {
    for row in PAIRS {
        assert!(rt; is_pair(rt.alloc(), row), "{} {}", row.0, row.1);
    }
}

// Whether the row says so of both pages, also whether a name leads to one URL from both.
fn is_pair(alloc: Global, row: &Pair) -> bool {
    let (Ok(one), Ok(other)) = (Base::canonical(alloc, row.0), Base::canonical(alloc, row.1)) else {
        return false;
    };
    let from_one = one.resolve(alloc, "x");
    let share_a_name = from_one.is_ok() && from_one == other.resolve(alloc, "x");
    one.shares_folder(&other) == row.2
        && other.shares_folder(&one) == row.2
        && share_a_name == row.2
}

/// A text, and how its URL relates to that of `http://a.test?q#f`.
const COMPARED: &[(&str, Ordering)] = &[
    ("HTTP://A.TEST:80/?q", Ordering::Equal),
    ("http://a.test/?p", Ordering::Less),
    ("http://a.test/?r", Ordering::Greater),
];

#[test]
fn spellings_are_equal(rt: HostRuntime) {
    for row in COMPARED {
        assert!(rt; compares(rt.alloc(), row.0) == Some(row.1), "{}", row.0);
    }
}

// The order, if the URLs are equal and keys of one set exactly if the order says so.
fn compares(alloc: Global, input: &str) -> Option<Ordering> {
    let url = canonical(alloc, input).ok()?;
    let one = canonical(alloc, "http://a.test?q#f").ok()?;
    let order = url.cmp(&one);
    let is_equal = url == one;
    let mut set = HashSet::new(alloc);
    let is_key = set.insert(one).is_ok() && set.contains(&url);
    let is_same = order == Ordering::Equal;
    if is_equal == is_same && is_key == is_same {
        Some(order)
    } else {
        None
    }
}

fn crosses_threads<T: Send + Sync>() {}

#[test]
fn urls_bases_and_filters_cross_threads() {
    crosses_threads::<CanonUrl>();
    crosses_threads::<Base>();
    crosses_threads::<Filter>();
}
