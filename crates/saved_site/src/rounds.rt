//! Makes the pages of a site, round by round.
ghost use Rattle.std.specs.Prelude.{IfErr};
ghost use Rattle.saved_site.specs.Meaning.{IsOfWeb};

use crate::page_maker::{Batch, next_batch};
use crate::page_sink::PageSink;
use crate::site_data::SiteData;
use crate::site_reader::SiteReader;
use crate::task::Task;
use crate::tasks::TaskQueue;
use site_files::{FileBytes, SiteError};
use std::alloc::AllocError;
use std::thread;
use std::thread::Threads;

/// Makes all pages. The first round makes the pages of the site and those that seeds spell, the second those that links spell, and
/// the third the targets of redirects among these. Links of aliases spell nothing, so no round follows unless a name contains `//`.
pub(crate) fn make_all<R: Threads + Sync, B: FileBytes + Sync, S: PageSink>(
    rt: &R,
    site: &SiteReader<'_, '_, B, S>,
    queue: &mut TaskQueue,
    data: &mut SiteData<S>,
) -> Result<(), SiteError>
    ensures { IfErr result IsOfWeb }
{
    'rounds: for _ in 0..u64::MAX {
        let tasks = queue.take();
        if tasks.is_empty() {
            break;
        }
        make_round(rt, site, tasks.as_slice(), queue, data)?;
    }
    Ok(())
}

/// Makes the page of each task.
fn make_round<R: Threads + Sync, B: FileBytes + Sync, S: PageSink>(
    rt: &R,
    site: &SiteReader<'_, '_, B, S>,
    tasks: &[Task],
    queue: &mut TaskQueue,
    data: &mut SiteData<S>,
) -> Result<(), SiteError>
    ensures { IfErr result IsOfWeb }
{
    let last = make_batches(rt, site, tasks, queue, data)?;
    let Batch { pages, makers, .. } = last;
    data.add_makers(makers)?;
    data.push_all(pages)?;
    Ok(data.end_round()?)
}

/// Makes the page of each task, batch by batch. Each batch is counted before the next is made, and added to the data while that is
/// made. The last one is not added yet.
fn make_batches<R: Threads + Sync, B: FileBytes + Sync, S: PageSink>(
    rt: &R,
    site: &SiteReader<'_, '_, B, S>,
    tasks: &[Task],
    queue: &mut TaskQueue,
    data: &mut SiteData<S>,
) -> Result<Batch<S>, SiteError>
    ensures { IfErr result IsOfWeb }
{
    let alloc = *data.notes.allocator();
    let files = site.files;
    let mut batch = Batch::before(alloc, files, files.threads().min(tasks.len()).max(1))?;
    let mut rest = tasks;
    'batches: for _ in 0..tasks.len() {
        if rest.is_empty() {
            break;
        }
        batch = make_batch(rt, site, rest, batch, data)?;
        data.notes.append(&mut batch.notes)?;
        queue.count(batch.pages.as_mut_slice())?;
        rest = rest.get(batch.pages.len()..).unwrap_or(&[]);
    }
    Ok(batch)
}

/// Makes the pages of the first of the tasks in threads. Meanwhile those of the batch before are added to the data.
fn make_batch<R: Threads + Sync, B: FileBytes + Sync, S: PageSink>(
    rt: &R,
    site: &SiteReader<'_, '_, B, S>,
    tasks: &[Task],
    batch: Batch<S>,
    data: &mut SiteData<S>,
) -> Result<Batch<S>, AllocError> {
    let Batch { pages, makers, .. } = batch;
    let (next, added) = thread::join(
        rt,
        move || next_batch(rt, site, tasks, makers),
        move || data.push_all(pages),
    );
    match added {
        Ok(()) => next,
        Err(error) => Err(error),
    }
}
