//! Certificates of runs whose results were changed, on one thread and by threads.
use crate::tests::certificate::tables::{
    Case, Change, END, ERRORS_IN_EACH_CHUNK, Expected, FIRST, GROUPS, Group, LONG_WEB,
};
use crate::tests::results::{have_urls, result_at, urls_of};
use crate::tests::runs::Left;
use crawl_certificate::{CertError, CertifySettings, CrawlResult, Culprit, certify, certify_with};
use crawl_keys::Filter;
use crawl_pages::PageResult;
use std::alloc::{AllocError, Global};
use std::sync::Wait;
use std::thread::Threads;

const IN_THREADS: CertifySettings = CertifySettings {
    threads: 4,
    is_lossless: false,
};

// Copies of the results, with the change.
fn changed(alloc: Global, found: &[PageResult], change: Change) -> Vec<PageResult> {
    let (at, web, more) = change;
    let mut results = Vec::new(alloc);
    for one in found {
        let result = if one.url.as_str() == at {
            result_at(alloc, &(web, at))
        } else {
            one.copy().ok()
        };
        if let Some(result) = result {
            let _ = results.push(result);
        }
    }
    if let Some(result) = result_at(alloc, &("savedweb 1", more)) {
        let _ = results.push(result);
    }
    results
}

// Whether the outcome is the expected one, and the error is this cause.
fn is_expected(
    found: &Result<CrawlResult, Culprit>,
    cause: Option<CertError>,
    expected: Expected,
) -> bool {
    match (found, expected) {
        (Ok(found), Expected::Pages(urls)) => cause.is_none() && have_urls(found.pages(), urls),
        (Ok(found), Expected::Count(count)) => cause.is_none() && found.pages().len() == count,
        (Err(culprit), Expected::Error(error, url)) => match &culprit.url {
            Some(named) => {
                culprit.cause == error && cause == Some(error) && named.as_str() == url
            }
            None => false,
        },
        _ => false,
    }
}

// Whether the outcome is the expected one, on one thread and by threads, which also name the culprit.
fn holds<R: Threads + Sync>(rt: &R, alloc: Global, run: &Left, case: &Case) -> Option<bool> {
    let (within, seeds, change, expected) = *case;
    let filter = Filter::new(alloc, within).ok()?;
    let urls = urls_of(alloc, seeds);
    let results = changed(alloc, &run.results, change);
    let cause = certify(alloc, &filter, &urls, &run.account, &results).err();
    let found = certify_with(rt, IN_THREADS, &filter, &urls, &run.account, results);
    Some(is_expected(&found, cause, expected))
}

// The number of cases of the group that hold before one does not.
fn holding<R: Threads + Wait + Sync>(rt: &R, alloc: Global, group: &Group, web: &str) -> usize {
    let Some(run) = group.left(rt, alloc, web) else {
        return 0;
    };
    for (index, case) in group.cases.iter().enumerate() {
        if holds(rt, alloc, &run, case) != Some(true) {
            return index;
        }
    }
    group.cases.len()
}

// The first group with a case that does not hold, and how many hold before it.
fn first_error<R: Threads + Wait + Sync>(
    rt: &R,
    alloc: Global,
    groups: &'static [Group],
) -> Option<(&'static str, usize)> {
    for group in groups {
        let holding = holding(rt, alloc, group, group.web);
        if holding != group.cases.len() {
            return Some((group.name, holding));
        }
    }
    None
}

#[test]
fn certificates_of_small_webs(rt: HostRuntime) {
    let error = first_error(&rt, rt.alloc(), &GROUPS);
    assert!(rt; error.is_none(), "{error:?}");
}

fn long_web(alloc: Global) -> Result<String, AllocError> {
    let mut text = String::from_str(alloc, "savedweb 1\npage http://a.test/\n")?;
    for number in FIRST..END {
        writeln!(text, "link p{number}")?;
    }
    text.push_str(LONG_WEB)?;
    Ok(text)
}

#[test]
fn errors_in_each_chunk(rt: HostRuntime) {
    let holding = match long_web(rt.alloc()) {
        Ok(text) => holding(&rt, rt.alloc(), &ERRORS_IN_EACH_CHUNK, &text),
        Err(_) => 0,
    };
    assert!(rt; holding == ERRORS_IN_EACH_CHUNK.cases.len(), "{holding}");
}
