//! The rows of a report, independent of its form.

use crate::value::{BaseHint, Broken, External, FileCount, Place, Redirect, Totals};

/// A section of a report. It is printed if it has rows.
#[derive(Clone, Copy)]
pub enum Section {
    Broken,
    Worst,
    Redirects,
    Unreached,
    Unlisted,
    External,
    Unused,
}

/// The optional counts of a report.
#[derive(Clone, Copy)]
pub struct Counts {
    pub unreached: Option<usize>,
    pub unlisted: Option<usize>,
    pub external: Option<usize>,
}

/// A row of a report.
#[derive(Clone, Copy)]
pub enum Row<'r> {
    /// The site and the counts.
    Total {
        base: &'r str,
        totals: Totals,
        counts: Counts,
    },
    Hint(&'r BaseHint),
    Begin(Section),
    Finish(Section),
    Broken(&'r Broken),
    /// A broken link: its target and its location.
    Place(&'r Broken, &'r Place),
    /// The number of locations of a target that are not listed, after those that are.
    More(usize),
    /// A target and the number of its locations that are not listed.
    Rest(&'r Broken, usize),
    Worst(&'r FileCount),
    Redirect(&'r Redirect),
    External(&'r External),
    /// A name or an entry in a section.
    Name(Section, &'r str),
    Last,
}
