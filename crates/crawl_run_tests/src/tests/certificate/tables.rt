//! Runs, changes of their results, and what their certificate is expected to be.
use crate::tests::runs::{How, Left, Run};
use crate::tests::webs::{MOVED, RING};
use crawl_certificate::CertError;
use crawl_certificate::CertError::{LinkMissing, NotFetched, SeedMissing, Twice, Unfounded};
use saved_web::SavedWeb;
use std::alloc::Global;
use std::sync::Wait;
use std::thread::Threads;

/// A run, and cases with changes of its results.
#[derive(Drop)]
pub struct Group {
    pub name: &'static str,
    pub workers: u32,
    pub within: Texts,
    pub seeds: Texts,
    pub web: &'static str,
    pub cases: &'static [Case],
}

impl Group {
    /// What the run over a web leaves, with room for all URLs, turn by turn.
    pub fn left<R: Threads + Wait + Sync>(&self, rt: &R, alloc: Global, web: &str) -> Option<Left> {
        let web = SavedWeb::read(alloc, web.as_bytes()).ok()?;
        let run = Run {
            workers: self.workers,
            max_pending: 30_000,
            within: self.within,
            seeds: self.seeds,
            how: How::Turns,
        };
        run.left(rt, alloc, &web)
    }
}

pub type Texts = &'static [&'static str];

/// The filter and the seeds that are given to the certificate, what is changed in the results, and the expected outcome.
pub type Case = (Texts, Texts, Change, Expected);

/// A change of results: a URL, the saved web from which its result comes instead, and a URL for one more result, which is missing.
/// Without a saved web the URL has no result.
pub type Change = (&'static str, &'static str, &'static str);

#[derive(Clone, Copy)]
pub enum Expected {
    /// The pages at these URLs.
    Pages(Texts),
    /// This number of pages.
    Count(usize),
    /// This error, at this URL.
    Error(CertError, &'static str),
}

use Expected::{Count, Error, Pages};

const A: &str = "http://a.test/";

const B: &str = "http://b.test/";

const C: &str = "http://c.test/";

const D: &str = "http://d.test/";

const E: &str = "http://e.test/";

const GONE: &str = "http://c.test/gone";

const NONE: Texts = &[];

const ALL_FOUR: Texts = &[A, B, C, GONE];

const WITHIN_A: Texts = &["a.test"];

const WITHIN_A_AND_C: Texts = &["a.test", "c.test"];

// Three pages that link to one another, and a missing one.
const TRIANGLE: &str = "savedweb 1
page http://a.test/
link http://b.test/
link //c.test/
page http://b.test/
link //c.test
link //a.test/
page http://c.test/
link http://A.test:80
link gone
";

const CYCLE: &str = "savedweb 1
page http://a.test/
link http://b.test/
page http://b.test/
link http://a.test/
";

const NOTHING: Change = ("", "", "");

const GONE_TO_D: Change = (
    GONE,
    "savedweb 1\npage http://c.test/gone\nlink http://d.test/",
    "",
);

const GONE_TO_B: Change = (
    GONE,
    "savedweb 1\npage http://c.test/gone\nlink http://b.test/",
    "",
);

const C_TO_GONE: Change = (
    C,
    "savedweb 1\npage http://c.test/\nlink http://c.test/gone",
    "",
);

const C_TO_A: Change = (
    C,
    "savedweb 1\npage http://c.test/\nlink http://a.test/",
    "",
);

const B_TO_A: Change = (
    B,
    "savedweb 1\npage http://b.test/\nlink http://a.test/",
    "",
);

const A_TO_B: Change = (
    A,
    "savedweb 1\npage http://a.test/\nlink http://b.test/",
    "",
);

const A_MOVED: Change = (A, "savedweb 2\npage http://a.test/\nmoved mailto:x", "");

const B_MOVED_TO_D: Change = (
    B,
    "savedweb 2\npage http://b.test/\nmoved http://d.test/",
    "",
);

const B_MOVED_TO_A: Change = (
    B,
    "savedweb 2\npage http://b.test/\nmoved http://a.test/",
    "",
);

const MORE_D: Change = ("", "", D);

const MORE_GONE: Change = ("", "", GONE);

const MORE_A: Change = ("", "", A);

const MORE_B: Change = ("", "", B);

const WITHOUT_GONE: Change = (GONE, "", "");

const WITHOUT_B: Change = (B, "", "");

const CERTIFICATE_ERRORS: &[Case] = &[
    (NONE, &[A], NOTHING, Pages(ALL_FOUR)),
    (NONE, &[A, A], NOTHING, Pages(ALL_FOUR)),
    (NONE, &[A, D], NOTHING, Error(SeedMissing, D)),
    (NONE, &[A], WITHOUT_GONE, Error(NotFetched, GONE)),
    (NONE, &[A], GONE_TO_D, Error(LinkMissing, D)),
    (NONE, &[A], GONE_TO_B, Pages(ALL_FOUR)),
    (NONE, NONE, NOTHING, Error(Unfounded, A)),
    (NONE, &[B], NOTHING, Error(Unfounded, A)),
    (NONE, &[A], MORE_D, Error(Unfounded, D)),
    (NONE, &[A], MORE_GONE, Error(Twice, GONE)),
    (NONE, &[A], MORE_A, Error(Twice, A)),
    (NONE, &[A], C_TO_GONE, Pages(ALL_FOUR)),
    // No page links to `gone`, and then none to `c`.
    (NONE, &[A], C_TO_A, Error(Unfounded, GONE)),
    (NONE, &[A], B_TO_A, Error(Unfounded, C)),
    // If there are several errors, the first one is returned.
    (NONE, &[D], WITHOUT_GONE, Error(SeedMissing, D)),
    (NONE, &[B], WITHOUT_GONE, Error(NotFetched, GONE)),
    (NONE, &[B], GONE_TO_D, Error(LinkMissing, D)),
    (NONE, &[B], MORE_GONE, Error(Unfounded, A)),
    // If several URLs have the error, the least one is named.
    (NONE, &[E, A, D], NOTHING, Error(SeedMissing, D)),
    (NONE, &[A], A_MOVED, Error(Unfounded, B)),
    (NONE, NONE, MORE_D, Error(Unfounded, A)),
];

/// Groups of small webs.
pub static GROUPS: [Group; 10] = [
    Group {
        name: "certificate_faults, one worker",
        workers: 1,
        within: NONE,
        seeds: &[A],
        web: RING,
        cases: CERTIFICATE_ERRORS,
    },
    Group {
        name: "certificate_faults, three workers",
        workers: 3,
        within: NONE,
        seeds: &[A],
        web: RING,
        cases: CERTIFICATE_ERRORS,
    },
    Group {
        name: "moved_pages",
        workers: 3,
        within: NONE,
        seeds: &[A, C],
        web: MOVED,
        cases: &[
            (NONE, &[A, C], NOTHING, Pages(ALL_FOUR)),
            (NONE, &[A, C], WITHOUT_B, Error(NotFetched, B)),
            (NONE, &[A, C], B_MOVED_TO_D, Error(LinkMissing, D)),
            (NONE, &[A, C], B_MOVED_TO_A, Pages(ALL_FOUR)),
            (NONE, &[A, C], A_MOVED, Error(Unfounded, B)),
            (NONE, &[A, C], MORE_A, Error(Twice, A)),
        ],
    },
    // After the change only `b` links to `c`, and it has the same number of hops.
    Group {
        name: "linked_with_as_many_hops",
        workers: 3,
        within: NONE,
        seeds: &[A],
        web: TRIANGLE,
        cases: &[
            (NONE, &[A], NOTHING, Pages(ALL_FOUR)),
            (NONE, &[A], A_TO_B, Error(Unfounded, C)),
        ],
    },
    // Two pages link to each other: without a seed among them they are not reached.
    Group {
        name: "cycle_without_a_seed",
        workers: 2,
        within: NONE,
        seeds: &[C, A],
        web: CYCLE,
        cases: &[
            (NONE, &[C, A], NOTHING, Pages(&[A, B, C])),
            (NONE, &[C], NOTHING, Error(Unfounded, A)),
            (NONE, &[C, B], NOTHING, Error(Unfounded, A)),
        ],
    },
    // Neither a seed nor links to `b.test` are errors.
    Group {
        name: "filtered_seeds_and_links",
        workers: 3,
        within: WITHIN_A_AND_C,
        seeds: &[A, B],
        web: TRIANGLE,
        cases: &[
            (WITHIN_A_AND_C, &[A, B], NOTHING, Pages(&[A, C, GONE])),
            (NONE, &[A, B], NOTHING, Error(SeedMissing, B)),
            (NONE, &[A], NOTHING, Error(LinkMissing, B)),
            (WITHIN_A, &[A], NOTHING, Error(Unfounded, C)),
            (WITHIN_A_AND_C, &[A, B], MORE_B, Error(Unfounded, B)),
        ],
    },
    Group {
        name: "within_suffix, a host",
        workers: 2,
        within: &["b.test"],
        seeds: &[A, B],
        web: RING,
        cases: &[(&["b.test"], &[A, B], NOTHING, Pages(&[B]))],
    },
    Group {
        name: "within_suffix, all",
        workers: 2,
        within: &["test"],
        seeds: &[A, B],
        web: RING,
        cases: &[(&["test"], &[A, B], NOTHING, Pages(ALL_FOUR))],
    },
    Group {
        name: "within_suffix, without its dot",
        workers: 2,
        within: &["est"],
        seeds: &[A, B],
        web: RING,
        cases: &[(&["est"], &[A, B], NOTHING, Pages(NONE))],
    },
    Group {
        name: "no_seeds",
        workers: 2,
        within: NONE,
        seeds: NONE,
        web: RING,
        cases: &[(NONE, NONE, NOTHING, Pages(NONE))],
    },
];

/// The first page of a long web links to `p10000` and so on, up to this number.
pub const FIRST: u32 = 10_000;

pub const END: u32 = 14_996;

/// The other pages of the long web. Each is the only one that links to its link.
pub const LONG_WEB: &str = "page http://a.test/p10007
link c1
page http://a.test/p12000
link c2
page http://a.test/p13000
link c3
page http://a.test/p14000
link c4
";

const IN_CHUNK_1: &str = "http://a.test/p10007";

const IN_CHUNK_2: &str = "http://a.test/p12000";

const IN_CHUNK_3: &str = "http://a.test/p13000";

const IN_CHUNK_4: &str = "http://a.test/p14000";

const C1: &str = "http://a.test/c1";

const C2: &str = "http://a.test/c2";

const C3: &str = "http://a.test/c3";

const C4: &str = "http://a.test/c4";

const IN_CHUNK_1_TO_D: Change = (
    IN_CHUNK_1,
    "savedweb 1\npage http://a.test/p10007\nlink http://d.test/",
    "",
);

const IN_CHUNK_2_TO_D: Change = (
    IN_CHUNK_2,
    "savedweb 1\npage http://a.test/p12000\nlink http://d.test/",
    "",
);

const IN_CHUNK_3_TO_D: Change = (
    IN_CHUNK_3,
    "savedweb 1\npage http://a.test/p13000\nlink http://d.test/",
    "",
);

const IN_CHUNK_4_TO_D: Change = (
    IN_CHUNK_4,
    "savedweb 1\npage http://a.test/p14000\nlink http://d.test/",
    "",
);

const IN_CHUNK_1_TO_ITSELF: Change = (
    IN_CHUNK_1,
    "savedweb 1\npage http://a.test/p10007\nlink http://a.test/p10007",
    "",
);

const IN_CHUNK_2_TO_ITSELF: Change = (
    IN_CHUNK_2,
    "savedweb 1\npage http://a.test/p12000\nlink http://a.test/p12000",
    "",
);

const IN_CHUNK_3_TO_ITSELF: Change = (
    IN_CHUNK_3,
    "savedweb 1\npage http://a.test/p13000\nlink http://a.test/p13000",
    "",
);

const IN_CHUNK_4_TO_ITSELF: Change = (
    IN_CHUNK_4,
    "savedweb 1\npage http://a.test/p14000\nlink http://a.test/p14000",
    "",
);

const MORE_IN_CHUNK_1: Change = ("", "", IN_CHUNK_1);

const MORE_IN_CHUNK_2: Change = ("", "", IN_CHUNK_2);

const MORE_IN_CHUNK_3: Change = ("", "", IN_CHUNK_3);

const MORE_IN_CHUNK_4: Change = ("", "", IN_CHUNK_4);

/// A run with enough results that four threads look at a chunk each. An error in any chunk is an error of the run. A page in
/// each chunk links to no entry, or to itself; or it is fetched once more, at the end of the last chunk.
pub static ERRORS_IN_EACH_CHUNK: Group = Group {
    name: "errors_in_each_chunk",
    workers: 1,
    within: NONE,
    seeds: &[A],
    web: LONG_WEB,
    cases: &[
        (NONE, &[A], NOTHING, Count(5_001)),
        (NONE, &[A], IN_CHUNK_1_TO_D, Error(LinkMissing, D)),
        (NONE, &[A], IN_CHUNK_2_TO_D, Error(LinkMissing, D)),
        (NONE, &[A], IN_CHUNK_3_TO_D, Error(LinkMissing, D)),
        (NONE, &[A], IN_CHUNK_4_TO_D, Error(LinkMissing, D)),
        (NONE, &[A], IN_CHUNK_1_TO_ITSELF, Error(Unfounded, C1)),
        (NONE, &[A], IN_CHUNK_2_TO_ITSELF, Error(Unfounded, C2)),
        (NONE, &[A], IN_CHUNK_3_TO_ITSELF, Error(Unfounded, C3)),
        (NONE, &[A], IN_CHUNK_4_TO_ITSELF, Error(Unfounded, C4)),
        (NONE, &[A], MORE_IN_CHUNK_1, Error(Twice, IN_CHUNK_1)),
        (NONE, &[A], MORE_IN_CHUNK_2, Error(Twice, IN_CHUNK_2)),
        (NONE, &[A], MORE_IN_CHUNK_3, Error(Twice, IN_CHUNK_3)),
        (NONE, &[A], MORE_IN_CHUNK_4, Error(Twice, IN_CHUNK_4)),
    ],
};

/// The number of pages of the web of many hosts, which is enough for four threads to walk over the results.
pub const PAGES: u32 = 5_000;

/// The numbers of workers that crawl it.
pub const WORKERS: [u32; 6] = [1, 2, 3, 4, 8, 64];

/// A run over the web of many hosts, by this number of workers.
pub fn many_hosts(workers: u32) -> Group {
    Group {
        name: "many_hosts",
        workers,
        within: NONE,
        seeds: &["http://h0.test/p0"],
        web: "",
        cases: &[],
    }
}
