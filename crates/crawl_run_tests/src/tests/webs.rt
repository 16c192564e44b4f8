//! Saved webs of several tests, and the report of a complete crawl of some.

/// The saved web `examples/ring.web`.
pub const RING: &str = "savedweb 1\n\
    page http://a.test/\n\
    link http://b.test/\n\
    link #top\n\
    link mailto:x@a.test\n\
    page http://b.test/\n\
    link //c.test\n\
    link /\n\
    page http://c.test/\n\
    link http://A.test:80\n\
    link gone\n";

pub const RING_REPORT: &str = "ok 3 1 http://a.test/\n\
    ok 2 0 http://b.test/\n\
    ok 2 0 http://c.test/\n\
    missing http://c.test/gone\n\
    total 4 ok 3 missing 1\n";

pub const TWO_LINKS: &str = "savedweb 1\npage http://a.test/\nlink 1\nlink 2\n";

pub const TWO_LINKS_REPORT: &str = "ok 2 0 http://a.test/\n\
    missing http://a.test/1\n\
    missing http://a.test/2\n\
    total 3 ok 1 missing 2\n";

/// Two pages that moved, one of them to no URL, and a page that links to a missing one.
pub const MOVED: &str = "savedweb 2\n\
    page http://a.test/\n\
    moved http://b.test/\n\
    page http://b.test/\n\
    moved mailto:x\n\
    page http://c.test/\n\
    link gone\n";

/// The report of a crawl that reaches nothing.
pub const NOTHING: &str = "total 0 ok 0 missing 0\n";
