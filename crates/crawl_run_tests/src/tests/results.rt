//! Texts as URLs, the pages of saved webs, and the reports of results.
use crawl_keys::{CanonUrl, canonical};
use crawl_pages::{Fetch, PageResult};
use crawl_report::report_text;
use saved_web::SavedWeb;
use std::alloc::Global;

/// The text of a saved web, and a URL.
pub type Target = (&'static str, &'static str);

/// The page of the saved web at the URL.
pub fn result_at(alloc: Global, target: &Target) -> Option<PageResult> {
    match SavedWeb::read(alloc, target.0.as_bytes()) {
        Ok(web) => result_of(alloc, &web, target.1),
        Err(_) => None,
    }
}

/// The page of a saved web at the URL of a text.
pub fn result_of(alloc: Global, web: &SavedWeb, text: &str) -> Option<PageResult> {
    let url = canonical(alloc, text).ok()?;
    let page = web.fetch(alloc, &url).ok()?;
    Some(PageResult { url, page })
}

/// The URLs of those of these texts that have one.
pub fn urls_of(alloc: Global, texts: &[&str]) -> Vec<CanonUrl> {
    let mut urls = Vec::new(alloc);
    for text in texts {
        if let Ok(url) = canonical(alloc, text) {
            let _ = urls.push(url);
        }
    }
    urls
}

/// Whether these are the URLs, in this order.
pub fn are_urls(urls: &[CanonUrl], texts: &[&str]) -> bool {
    if urls.len() != texts.len() {
        return false;
    }
    for (url, &text) in urls.iter().zip(texts) {
        if url.as_str() != text {
            return false;
        }
    }
    true
}

/// Whether the results have these URLs, in this order.
pub fn have_urls(results: &[PageResult], texts: &[&str]) -> bool {
    for (result, text) in results.iter().zip(texts) {
        if result.url.as_str() != *text {
            return false;
        }
    }
    results.len() == texts.len()
}

/// Whether the results have this report.
pub fn is_report(alloc: Global, results: &[PageResult], expected: &str) -> bool {
    match report_text(alloc, results) {
        Ok(text) => text.as_slice() == expected.as_bytes(),
        Err(_) => false,
    }
}
