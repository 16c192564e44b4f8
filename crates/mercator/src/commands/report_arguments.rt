//! The options for the sections of a report, and the sections that they ask for.
use crate::commands::arguments::Flag;
use clap::ArgMatches;
use crawl_report::{Sections, Sources};

/// The options for the sections of a report.
pub const SECTION_FLAGS: &[Flag] = &[
    Flag {
        name: "sources",
        help: "Also print how many pages link to each missing URL, and the first of them",
    },
    Flag {
        name: "all-sources",
        help: "Like --sources, and also print every page that links to a missing URL",
    },
    Flag {
        name: "moved",
        help: "Also print where redirects lead; with --sources, also which pages link to them",
    },
    Flag {
        name: "unreached",
        help: "Also print the pages of FILE that cannot be reached from the seeds",
    },
];

/// The sections that the command line asks for.
pub fn sections_of(found: &ArgMatches<'_>) -> Sections {
    Sections {
        sources: sources_of(found),
        moved: found.get_flag("moved"),
        unreached: found.get_flag("unreached"),
    }
}

/// Which sources are printed. If all are, they follow the first one.
fn sources_of(found: &ArgMatches<'_>) -> Sources {
    if found.get_flag("all-sources") {
        Sources::All
    } else if found.get_flag("sources") {
        Sources::First
    } else {
        Sources::None
    }
}
