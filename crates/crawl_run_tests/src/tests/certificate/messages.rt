//! What a refusal prints.
use crawl_certificate::CertError;
use std::alloc::Global;

static MESSAGES: [(CertError, &str); 6] = [
    (CertError::SeedMissing, "incomplete: seed missing"),
    (CertError::NotFetched, "incomplete: page not fetched"),
    (CertError::LinkMissing, "incomplete: link missing"),
    (CertError::Unfounded, "incomplete: unfounded URL"),
    (CertError::Twice, "incomplete: fetched twice"),
    (CertError::NoMemory, "out of memory"),
];

fn prints(alloc: Global, error: CertError, text: &str) -> bool {
    match format!(in alloc; "{error}") {
        Ok(found) => found.as_str() == text,
        Err(_) => false,
    }
}

#[test]
fn messages(rt: HostRuntime) {
    for (error, text) in MESSAGES {
        assert!(rt; prints(rt.alloc(), error, text), "{text}");
    }
}
