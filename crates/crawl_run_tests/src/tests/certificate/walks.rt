//! That the walk by threads sees each link that made an entry, so that none is looked up.
use crate::tests::certificate::tables::{PAGES, WORKERS, many_hosts};
use crate::tests::runs::Left;
use crawl_certificate::testing::seen_linked;
use std::alloc::{AllocError, Global};
use std::sync::Wait;
use std::thread::Threads;

// Page n links to pages 2n + 1 and 2n + 2, to itself and to the page before, in twenty hosts.
fn web_of_many_hosts(alloc: Global) -> Result<String, AllocError> {
    let mut text = String::from_str(alloc, "savedweb 1\n")?;
    for page in 0..PAGES {
        push_page(&mut text, page)?;
    }
    Ok(text)
}

fn push_page(text: &mut String, page: u32) -> Result<(), AllocError> {
    writeln!(text, "page http://h{}.test/p{page}", page % 20)?;
    let first = page.saturating_mul(2).saturating_add(1);
    for to in [first, first.saturating_add(1), page, page.saturating_sub(1)] {
        if to < PAGES {
            writeln!(text, "link http://h{}.test/p{to}", to % 20)?;
        }
    }
    Ok(())
}

// Whether there is this number of pages, and every entry with hops is seen to be linked.
fn is_all_seen<R: Threads + Sync>(rt: &R, alloc: Global, run: &Left) -> bool {
    let Ok(Some(marks)) = seen_linked(rt, alloc, &run.account, &run.results) else {
        return false;
    };
    let mut index: usize = 0;
    for queue in 0..run.account.workers() {
        for entry in run.account.queue(queue) {
            if entry.hops > 0 && marks.get(index) != Some(&true) {
                return false;
            }
            index = index.saturating_add(1);
        }
    }
    index == PAGES as usize
}

// The first of these numbers of workers whose crawl leaves an entry that is not seen to be linked.
fn first_unseen<R: Threads + Wait + Sync>(
    rt: &R,
    alloc: Global,
    text: &str,
    numbers: &[u32],
) -> Option<u32> {
    for &workers in numbers {
        let is_seen = match many_hosts(workers).left(rt, alloc, text) {
            Some(run) => is_all_seen(rt, alloc, &run),
            None => false,
        };
        if !is_seen {
            return Some(workers);
        }
    }
    None
}

#[test]
fn links_seen_by_threads(rt: HostRuntime) {
    match web_of_many_hosts(rt.alloc()) {
        Ok(text) => assert_eq!(rt; first_unseen(&rt, rt.alloc(), &text, &WORKERS), None),
        Err(_) => assert!(rt; false, "out of memory"),
    }
}
