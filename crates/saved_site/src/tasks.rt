//! The pages that are still to be made, and the number of bytes of the saved web.
ghost use Rattle.std.specs.Prelude.{IfErr};
ghost use Rattle.saved_site.specs.Meaning.{IsOfWeb};

use crate::new_page::NewPage;
use crate::spellings::text_spelling;
use crate::task::Task;
use crate::web_text::{HEADER_LENGTH, WEB_LIMIT};
use crawl_keys::CanonUrl;
use site_files::{SiteError, SiteFiles};
use std::alloc::{AllocError, Global};
use std::collections::BTreeSet;
use std::mem;

/// The pages that are still to be made.
#[derive(Drop)]
pub(crate) struct TaskQueue {
    alloc: Global,
    /// The URLs at other spellings and with queries whose pages were added.
    spelled: BTreeSet<CanonUrl>,
    tasks: Vec<Task>,
    /// The number of bytes of the saved web with the pages so far.
    byte_count: usize,
}

impl TaskQueue {
    /// The pages of the site, and those that seeds spell.
    pub(crate) fn new(
        alloc: Global,
        files: &SiteFiles<'_>,
        seeds: &[String],
    ) -> Result<TaskQueue, AllocError> {
        let mut queue = TaskQueue {
            alloc,
            spelled: BTreeSet::new(alloc),
            tasks: Vec::new(alloc),
            byte_count: HEADER_LENGTH,
        };
        queue.add_pages(files)?;
        queue.add_seeds(files, seeds)?;
        Ok(queue)
    }

    /// Adds the pages of the site.
    fn add_pages(&mut self, files: &SiteFiles<'_>) -> Result<(), AllocError> {
        for entry in 0..files.page_count() {
            if let Some(url) = files.url(entry) {
                let url = url.clone()?;
                self.tasks.push(Task { url, entry })?;
            }
        }
        Ok(())
    }

    /// Adds the pages that links on the top spell.
    fn add_seeds(&mut self, files: &SiteFiles<'_>, seeds: &[String]) -> Result<(), AllocError> {
        for seed in seeds {
            let spelling = text_spelling(self.alloc, files, files.top_url(), seed.as_str())?;
            if let Some(spelling) = spelling {
                self.add(spelling)?;
            }
        }
        Ok(())
    }

    /// Counts the bytes of new pages, and adds the pages that their links spell. The lists of these are freed.
    ///
    /// # Errors
    /// `TooLarge`, `NoMemory`.
    pub(crate) fn count(&mut self, pages: &mut [NewPage]) -> Result<(), SiteError>
        ensures { IfErr result IsOfWeb }
    {
        for page in pages.iter() {
            self.byte_count = self.byte_count.saturating_add(page.byte_count);
        }
        if self.byte_count > WEB_LIMIT {
            return Err(SiteError::TooLarge);
        }
        Ok(self.add_spelled(pages)?)
    }

    /// Adds the pages that links of new pages spell.
    fn add_spelled(&mut self, pages: &mut [NewPage]) -> Result<(), AllocError> {
        for page in pages.iter_mut() {
            let spellings = mem::replace(&mut page.spellings, Vec::new(self.alloc));
            for spelling in spellings {
                self.add(spelling)?;
            }
        }
        Ok(())
    }

    /// Adds a page at another spelling, unless one at its URL was added before.
    fn add(&mut self, spelling: Task) -> Result<(), AllocError> {
        let url = spelling.url.clone()?;
        let is_new = self.spelled.insert(url)?;
        if is_new {
            self.tasks.push(spelling)?;
        }
        Ok(())
    }

    /// Takes the pages of the next round.
    pub(crate) fn take(&mut self) -> Vec<Task> {
        mem::replace(&mut self.tasks, Vec::new(self.alloc))
    }
}
