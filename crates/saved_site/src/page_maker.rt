//! Makes pages in threads, each of which reads the files of its pages.
ghost use Rattle.std.specs.Prelude.{◌≡◌, [], IfOk, IfSome};
ghost use Rattle.saved_site.specs.TaskPages.{IsOwnPage, IsTaskPage, file_of, read_if};

use crate::new_page::{NewPage, alias_page, empty_page, is_html, moved_page, read_page};
use crate::page::SitePage;
use crate::page_sink::PageSink;
use crate::site_reader::SiteReader;
use crate::task::{Response, Task};
use document_links::RawLinks;
use site_files::{Body, FileBytes, Note, SiteFile, SiteFiles};
use std::alloc::{AllocError, Global};
use std::sync::atomic::{AtomicUsize, Ordering};
use std::thread;
use std::thread::Threads;

/// The number of bytes of documents and of lines in a batch, about. It is large, so that threads seldom wait for the last of them.
const BATCH_LENGTH: usize = 1 << 26;

/// The number of tasks that a thread takes together. Their pages are mostly in one folder.
const BLOCK: usize = 4;

/// The tasks of a batch that threads have taken: the first ones, in order.
#[derive(Drop)]
struct TaskCounter {
    count: AtomicUsize,
    /// The number of bytes that were read and made for them.
    byte_count: AtomicUsize,
}

impl TaskCounter {
    /// No tasks.
    fn new() -> TaskCounter {
        TaskCounter {
            count: AtomicUsize::new(0),
            byte_count: AtomicUsize::new(0),
        }
    }

    /// The number of the first of the next tasks, unless the batch has enough.
    fn next(&self) -> Option<usize> {
        if self.byte_count.load(Ordering::SeqCst) > BATCH_LENGTH {
            return None;
        }
        Some(self.count.fetch_add(BLOCK, Ordering::SeqCst))
    }

    /// Counts bytes.
    fn add(&self, byte_count: usize) {
        self.byte_count.fetch_add(byte_count, Ordering::SeqCst);
    }
}

/// The note about the file of the task with this number, which cannot be read.
#[derive(Drop)]
struct UnreadFile {
    number: usize,
    note: Note,
}

/// The pages that a thread has made, and its room for a file and the links in it.
#[derive(Drop)]
pub(crate) struct PageMaker<S> {
    alloc: Global,
    body: Body,
    room: RawLinks,
    pages: Vec<NewPage>,
    unread: Vec<UnreadFile>,
    /// The pages of all batches so far.
    sink: S,
}

impl<S: PageSink> PageMaker<S> {
    /// Creates a maker without pages, whose room for a file and its links is empty.
    fn new(alloc: Global, files: &SiteFiles<'_>) -> Result<PageMaker<S>, AllocError> {
        Ok(PageMaker {
            alloc,
            body: Body::new(alloc),
            room: RawLinks::new(alloc),
            pages: Vec::new(alloc),
            unread: Vec::new(alloc),
            sink: S::empty(alloc, files.top())?,
        })
    }

    /// The pages of all batches.
    pub(crate) fn into_sink(self) -> S {
        let PageMaker { sink, .. } = self;
        sink
    }

    /// Takes tasks and makes their pages, until no task is left or the batch has enough. A long file occupies only one thread.
    fn run<B: FileBytes>(
        self,
        site: &SiteReader<'_, '_, B, S>,
        tasks: &[Task],
        counter: &TaskCounter,
    ) -> Result<PageMaker<S>, AllocError> {
        let mut maker = self;
        for _ in 0..tasks.len() {
            let Some(first) = counter.next() else {
                break;
            };
            if first >= tasks.len() {
                break;
            }
            maker = maker.with_block(site, tasks, first, counter)?;
        }
        Ok(maker)
    }

    /// Makes the pages of the block of tasks that begins with this number.
    fn with_block<B: FileBytes>(
        self,
        site: &SiteReader<'_, '_, B, S>,
        tasks: &[Task],
        first: usize,
        counter: &TaskCounter,
    ) -> Result<PageMaker<S>, AllocError> {
        let mut maker = self;
        for number in first..first.saturating_add(BLOCK) {
            let Some(task) = tasks.get(number) else {
                break;
            };
            let mut page = maker.page_of(site, number, task)?;
            page.number = number;
            counter.add(maker.body.as_slice().len());
            counter.add(page.byte_count);
            maker = maker.with_new(site, task, page)?;
        }
        Ok(maker)
    }

    /// Makes the page of the task with this number.
    fn page_of<B: FileBytes>(
        &mut self,
        site: &SiteReader<'_, '_, B, S>,
        number: usize,
        task: &Task,
    ) -> Result<NewPage, AllocError>
        ensures { IfOk result (λ new. IfSome new.page (IsTaskPage site.now.files.now (B.reads site.now.bytes.now) task.now.entry task.now.url)) }
    {
        let files = site.files;
        self.body.clear();
        match task.response(files) {
            Response::Own(Some(file)) => self.page_in(site, number, task, file),
            Response::Own(None) => empty_page(self.alloc, task),
            Response::Alias(own) => alias_page(self.alloc, files, task, own),
            Response::Moved(target) => moved_page(self.alloc, files, task, target),
        }
    }

    /// Makes the page of the task with this number, whose links are in a file. If the file cannot be read, the page has no links.
    fn page_in<B: FileBytes>(
        &mut self,
        site: &SiteReader<'_, '_, B, S>,
        number: usize,
        task: &Task,
        file: SiteFile<'_>,
    ) -> Result<NewPage, AllocError>
        requires { self.old.body ≡ [] }
        ensures { IfOk result (λ new. IfSome new.page (IsOwnPage site.now.files.now (B.reads site.now.bytes.now) task.now.url (file_of file.entry))) }
    {
        let is_read = self.read(site.bytes, number, file)?;
        let body = self.body.as_slice();
        let read = is_read.then_some(body);
        let mut page = read_page(
            self.alloc,
            site.files,
            task,
            file.kind,
            read,
            &mut self.room,
        )?;
        page.is_document = is_html(file.kind, body);
        Ok(page)
    }

    /// Reads the file of the task with this number into the empty body, and returns whether it can be read.
    fn read<B: FileBytes>(
        &mut self,
        bytes: &B,
        number: usize,
        file: SiteFile<'_>,
    ) -> Result<bool, AllocError>
        requires { self.old.body ≡ [] }
        ensures { IfOk result (λ is_read. B.reads bytes.now file.entry.index (read_if is_read self.new.body)) }
    {
        let Some(left) = bytes.read(file, &mut self.body)? else {
            return Ok(true);
        };
        self.body.clear();
        let place = String::from_str(self.alloc, file.name)?;
        let note = Note { left, place };
        self.unread.push(UnreadFile { number, note })?;
        Ok(false)
    }

    /// The same with the new page of a task. The page itself goes into the sink.
    fn with_new<B: FileBytes>(
        self,
        site: &SiteReader<'_, '_, B, S>,
        task: &Task,
        new: NewPage,
    ) -> Result<PageMaker<S>, AllocError>
        requires { IfSome new.page (IsTaskPage site.now.files.now (B.reads site.now.bytes.now) task.now.entry task.now.url) }
    {
        let mut maker = self;
        let mut new = new;
        let page = new.page.take();
        maker.pages.push(new)?;
        match page {
            Some(page) => maker.with_page(site, task, page),
            None => Ok(maker),
        }
    }

    /// The same with the page of a task in the sink.
    fn with_page<B: FileBytes>(
        self,
        site: &SiteReader<'_, '_, B, S>,
        task: &Task,
        page: SitePage,
    ) -> Result<PageMaker<S>, AllocError>
        requires { IsTaskPage site.now.files.now (B.reads site.now.bytes.now) task.now.entry task.now.url page }
    {
        let maker = self;
        let is_served = task.is_served(maker.alloc, site.files)?;
        if !is_served {
            return Ok(maker);
        }
        let sink = maker.sink.with_page(page)?;
        Ok(PageMaker { sink, ..maker })
    }
}

/// Pages that were made together, in the order of their tasks, and the notes about files that cannot be read.
#[derive(Drop)]
pub(crate) struct Batch<S> {
    pub(crate) pages: Vec<NewPage>,
    pub(crate) notes: Vec<Note>,
    /// The makers of the pages, which make those of the next batch.
    pub(crate) makers: Vec<PageMaker<S>>,
}

impl<S: PageSink> Batch<S> {
    /// A batch without pages, with a maker for each of `threads` threads.
    pub(crate) fn before(
        alloc: Global,
        files: &SiteFiles<'_>,
        threads: usize,
    ) -> Result<Batch<S>, AllocError> {
        let mut batch = Batch::new(alloc);
        for _ in 0..threads {
            batch.makers.push(PageMaker::new(alloc, files)?)?;
        }
        Ok(batch)
    }

    /// Creates a batch without pages and makers.
    fn new(alloc: Global) -> Batch<S> {
        Batch {
            pages: Vec::new(alloc),
            notes: Vec::new(alloc),
            makers: Vec::new(alloc),
        }
    }

    /// The pages that threads made.
    fn of(
        alloc: Global,
        made: Vec<Result<PageMaker<S>, AllocError>>,
    ) -> Result<Batch<S>, AllocError> {
        let mut batch = Batch::new(alloc);
        for maker in made {
            batch.makers.push(maker?)?;
        }
        batch.take_pages()?;
        Ok(batch)
    }

    /// Takes over the pages of the makers, and the notes about files that cannot be read, in the order of their tasks.
    fn take_pages(&mut self) -> Result<(), AllocError> {
        let mut unread: Vec<UnreadFile> = Vec::new(*self.notes.allocator());
        for maker in self.makers.iter_mut() {
            self.pages.append(&mut maker.pages)?;
            unread.append(&mut maker.unread)?;
        }
        let pages = &mut self.pages;
        pages.sort_by(|a: &NewPage, b: &NewPage| a.number.cmp(&b.number))?;
        self.add_notes(unread)
    }

    /// Adds the notes about these files, which cannot be read, in the order of their tasks.
    fn add_notes(&mut self, unread: Vec<UnreadFile>) -> Result<(), AllocError> {
        let mut unread = unread;
        unread.sort_by(|a: &UnreadFile, b: &UnreadFile| a.number.cmp(&b.number))?;
        for one in unread {
            let UnreadFile { note, .. } = one;
            self.notes.push(note)?;
        }
        Ok(())
    }
}

/// Makes the pages of the first of these tasks, at least one if there is a maker. Each maker has its own thread.
pub(crate) fn next_batch<R: Threads + Sync, B: FileBytes + Sync, S: PageSink>(
    rt: &R,
    site: &SiteReader<'_, '_, B, S>,
    tasks: &[Task],
    makers: Vec<PageMaker<S>>,
) -> Result<Batch<S>, AllocError> {
    let alloc = *makers.allocator();
    let counter = TaskCounter::new();
    let counter = &counter;
    let made = thread::map_vec(
        rt,
        makers,
        &|maker: PageMaker<S>| { maker.run(site, tasks, counter) },
    )?;
    Batch::of(alloc, made)
}
