//! Whether it saves time to store the link texts of a folder: whether they occur again on its other pages.

/// The number of links that must be counted before the counts are used.
const FEWEST: u64 = 256;

/// The counts are halved when they reach this number, so that later pages count more.
const MOST: u64 = 4_096;

/// If it does not save time, the texts of one page in this number are stored all the same.
const PROBE: u32 = 32;

/// How often the text of a link was already known, on pages of folders that had a page before.
#[derive(Clone, Copy)]
pub struct Worth {
    links: u64,
    /// The number of links whose texts were not known.
    learned: u64,
    /// The number of pages whose texts were not stored.
    passed: u32,
}

impl Worth {
    /// Makes counts of 0.
    pub fn unknown() -> Worth {
        Worth {
            links: 0,
            learned: 0,
            passed: 0,
        }
    }

    /// Counts the links of a page, and those of them whose texts were not known.
    pub fn count(&mut self, links: u64, learned: u64) {
        if self.links > MOST {
            self.links /= 2;
            self.learned /= 2;
        }
        self.links = self.links.saturating_add(links);
        self.learned = self.learned.saturating_add(learned);
    }

    /// Whether to store the texts of the next page: if a quarter of those before were known, or if there were too few.
    pub fn is_some(&mut self) -> bool {
        if self.links < FEWEST || self.learned <= self.links / 4 * 3 {
            return true;
        }
        self.passed = self.passed.wrapping_add(1);
        self.passed % PROBE == 0
    }
}
