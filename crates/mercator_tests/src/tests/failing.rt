//! Readers, writers and flushes that fail late.
use crate::tests::runs::{ALL, BAD_COMMAND, DONE, ERROR, Failing, INCOMPLETE, Row, holds};
use std::alloc::Global;
use std::fs::Files;
use std::sync::Wait;
use std::thread::Threads;

const SCRIPT: &str = "workers 1 max 9\nlook 0\nenter 0\n";

const REQUESTS: &str = "offer http://a.test/\nnext 0\n";

const REPLIES: &str = "accepted 0 0\ntaken http://a.test/\n";

const ROWS: &[(Row, Failing)] = &[
    (
        Row {
            name: "second_read_fails",
            arguments: "replay -",
            input: SCRIPT,
            status: ERROR,
            out: "",
            err: "mercator: cannot read -\n",
        },
        Failing {
            reads: true,
            out: ALL,
            flushes: true,
            err: ALL,
        },
    ),
    (
        Row {
            name: "second_read_fails",
            arguments: "crawl - x",
            input: SCRIPT,
            status: ERROR,
            out: "",
            err: "mercator: cannot read -\n",
        },
        Failing {
            reads: true,
            out: ALL,
            flushes: true,
            err: ALL,
        },
    ),
    (
        Row {
            name: "first_write_fails",
            arguments: "replay -",
            input: SCRIPT,
            status: ERROR,
            out: "",
            err: "mercator: cannot write\n",
        },
        Failing {
            reads: false,
            out: 0,
            flushes: true,
            err: ALL,
        },
    ),
    (
        Row {
            name: "last_write_fails",
            arguments: "replay -",
            input: SCRIPT,
            status: ERROR,
            out: "word 1 open\nentered 2",
            err: "mercator: cannot write\n",
        },
        Failing {
            reads: false,
            out: 21,
            flushes: true,
            err: ALL,
        },
    ),
    (
        Row {
            name: "flush_fails",
            arguments: "replay -",
            input: SCRIPT,
            status: ERROR,
            out: "word 1 open\nentered 2\n",
            err: "mercator: cannot write\n",
        },
        Failing {
            reads: false,
            out: 22,
            flushes: false,
            err: ALL,
        },
    ),
    (
        Row {
            name: "nothing_fails",
            arguments: "replay -",
            input: SCRIPT,
            status: DONE,
            out: "word 1 open\nentered 2\n",
            err: "",
        },
        Failing {
            reads: false,
            out: 22,
            flushes: true,
            err: 0,
        },
    ),
    (
        Row {
            name: "nobody_hears_a_fault",
            arguments: "key mailto:x",
            input: "savedweb 1",
            status: ERROR,
            out: "",
            err: "",
        },
        Failing {
            reads: false,
            out: ALL,
            flushes: true,
            err: 0,
        },
    ),
    (
        Row {
            name: "a_fault_is_cut_off",
            arguments: "key mailto:x",
            input: "savedweb 1",
            status: ERROR,
            out: "",
            err: "merca",
        },
        Failing {
            reads: false,
            out: ALL,
            flushes: true,
            err: 5,
        },
    ),
    (
        Row {
            name: "nobody_hears_a_fault",
            arguments: "crawl --max-pending 1 - http://a.test/",
            input: "savedweb 1",
            status: INCOMPLETE,
            out: "",
            err: "",
        },
        Failing {
            reads: false,
            out: ALL,
            flushes: true,
            err: 0,
        },
    ),
    (
        Row {
            name: "a_fault_is_cut_off",
            arguments: "crawl --max-pending 1 - http://a.test/",
            input: "savedweb 1",
            status: INCOMPLETE,
            out: "",
            err: "merca",
        },
        Failing {
            reads: false,
            out: ALL,
            flushes: true,
            err: 5,
        },
    ),
    (
        Row {
            name: "nobody_hears_a_fault",
            arguments: "crawl",
            input: "savedweb 1",
            status: BAD_COMMAND,
            out: "",
            err: "",
        },
        Failing {
            reads: false,
            out: ALL,
            flushes: true,
            err: 0,
        },
    ),
    (
        Row {
            name: "a_fault_is_cut_off",
            arguments: "crawl",
            input: "savedweb 1",
            status: BAD_COMMAND,
            out: "",
            err: "error",
        },
        Failing {
            reads: false,
            out: ALL,
            flushes: true,
            err: 5,
        },
    ),
    (
        Row {
            name: "second_read_of_a_session_fails",
            arguments: "serve --workers 1",
            input: REQUESTS,
            status: ERROR,
            out: REPLIES,
            err: "mercator: cannot read -\n",
        },
        Failing {
            reads: true,
            out: ALL,
            flushes: true,
            err: ALL,
        },
    ),
    (
        Row {
            name: "write_of_an_answer_fails",
            arguments: "serve --workers 1",
            input: REQUESTS,
            status: ERROR,
            out: "accepted 0 0\ntaken",
            err: "mercator: cannot write\n",
        },
        Failing {
            reads: false,
            out: 18,
            flushes: true,
            err: ALL,
        },
    ),
    (
        Row {
            name: "flush_of_answers_fails",
            arguments: "serve --workers 1",
            input: REQUESTS,
            status: ERROR,
            out: REPLIES,
            err: "mercator: cannot write\n",
        },
        Failing {
            reads: false,
            out: ALL,
            flushes: false,
            err: ALL,
        },
    ),
    (
        Row {
            name: "nothing_fails_in_a_session",
            arguments: "serve --workers 1",
            input: REQUESTS,
            status: DONE,
            out: REPLIES,
            err: "",
        },
        Failing {
            reads: false,
            out: ALL,
            flushes: true,
            err: 0,
        },
    ),
];

/// The first row with another result.
fn first_wrong<R: Files<File: Send, Dir: Send> + Threads + Wait + Sync>(
    rt: &R,
    alloc: Global,
    rows: &'static [(Row, Failing)],
) -> Option<&'static str> {
    for (row, failing) in rows {
        if !holds(rt, alloc, row, *failing) {
            return Some(row.name);
        }
    }
    None
}

#[test]
fn reads_writes_and_flushes_that_fail(rt: HostRuntime) {
    assert_eq!(rt; first_wrong(&rt, rt.alloc(), ROWS), None);
}
