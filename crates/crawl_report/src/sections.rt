//! The optional sections of a report.
ghost use Rattle.std.specs.Prelude.{◌≡◌, false};
ghost use Rattle.crawl_report.specs.Rows.{plain_sections};

/// Which sources of missing URLs a report has.
#[derive(Clone, Copy, Debug)]
pub enum Sources {
    None,
    /// Their number, and the first of them.
    First,
    /// Their number, and each of them.
    All,
}

/// Which sections a report has in addition to results, total and queues.
#[derive(Clone, Copy, Debug)]
pub struct Sections {
    pub sources: Sources,
    /// Whether it has the targets of moved pages, and if it has sources, those of moved pages too.
    pub moved: bool,
    /// Whether it has the pages of the saved web that no result has.
    pub unreached: bool,
}

impl Sections {
    /// Only results, total and queues.
    pub fn none() -> Sections
        ensures { result ≡ plain_sections false }
    {
        Sections {
            sources: Sources::None,
            moved: false,
            unreached: false,
        }
    }
}
