//! Tests of what no command shows: a line is sent again after out of memory, and a log without an end of its last line is compacted.
use crawl_keys::Filter;
use crawl_session::{Compactor, Session};
use std::alloc::{AllocError, Global};

/// A session of one worker for hosts within `test`.
fn session(alloc: Global) -> Option<Session> {
    match Filter::new(alloc, &["test"]) {
        Ok(filter) => Session::new(alloc, 1, 40, filter).ok(),
        Err(_) => None,
    }
}

/// The requests of a session, each with its answer.
const ROWS: &[(&str, &str)] = &[
    ("offer http://a.test/", "accepted 0 0"),
    ("offer http://A.test:80/#x", "seen"),
    ("link http://a.test/x/y ../z?q", "accepted 0 1"),
    ("offer http://b.other/", "filtered"),
    ("offer mailto:a@b.test", "not http or https"),
    ("next 0", "taken http://a.test/"),
    ("again 0", "taken http://a.test/"),
    ("later 0", "count 3"),
    ("later 0", "refused nothing"),
    ("next 0", "taken http://a.test/z?q"),
    (
        "stats",
        "stats accepted 2 done 0 in-progress 1 waiting 1 put-back 1 seen 1",
    ),
    ("later 0", "count 3"),
    ("next 0", "taken http://a.test/"),
    ("later 1", "refused nosuch"),
    ("next 0", "refused busy"),
    ("next 1", "refused nosuch"),
    ("look", "bad line"),
    ("done 0", "count 2"),
    ("endseeds", "count 1"),
    ("next 0", "taken http://a.test/z?q"),
    ("done 0", "count 0"),
    ("next 0", "closed"),
    (
        "stats 0",
        "stats accepted 2 done 2 in-progress 0 waiting 0 put-back 0 seen 1",
    ),
    ("stats 1", "refused nosuch"),
    ("offer http://a.test/", "refused closed"),
];

/// The answer to a line, which is sent again after out of memory.
fn answer(alloc: Global, session: &mut Session, line: &str) -> Result<String, AllocError> {
    let answer = match session.answer(line.as_bytes()) {
        Ok(answer) => answer,
        Err(_) => session.answer(line.as_bytes())?,
    };
    format!(in alloc; "{answer}")
}

/// The number of requests before the first that has another answer.
fn right_replies(
    alloc: Global,
    session: &mut Session,
    requests: &'static [(&'static str, &'static str)],
) -> usize {
    for (index, (line, expected)) in requests.iter().enumerate() {
        let is_right = match answer(alloc, session, line) {
            Ok(answer) => answer.as_str() == *expected,
            Err(_) => false,
        };
        if !is_right {
            return index;
        }
    }
    requests.len()
}

#[test]
fn a_line_for_which_memory_was_out_is_sent_again(rt: HostRuntime) {
    let right = match session(rt.alloc()) {
        Some(mut session) => right_replies(rt.alloc(), &mut session, ROWS),
        None => 0,
    };
    assert!(rt; right == ROWS.len(), "request {right}, from 0");
}

/// Whether the session keeps this part of a log.
fn is_compacted(alloc: Global, session: &mut Session, log: &str, kept: &str) -> bool {
    let mut lines = Vec::new(alloc);
    let ended = Compactor::new(alloc).compact(session, log.as_bytes(), &mut lines);
    ended.is_ok() && lines.as_slice() == kept.as_bytes()
}

// A command removes such a line.
#[test]
fn compacts_a_log_whose_last_line_has_no_end(rt: HostRuntime) {
    let is_compacted = match session(rt.alloc()) {
        Some(mut session) => {
            is_compacted(rt.alloc(), &mut session, "done 0\nendseeds", "endseeds\n")
        }
        None => false,
    };
    assert!(rt; is_compacted);
}
