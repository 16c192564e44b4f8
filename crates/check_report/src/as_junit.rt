//! Prints a report as JUnit XML.
ghost use Rattle.std.specs.Prelude.{◌≡◌, ◌<◌, ◌≤◌, ◌++◌, IfOk, OnOk, drop, flat_map, length, map, take_while, string_bytes, true};
ghost use Rattle.check_report.specs.Junit.{bare_case, bare_suite, case_name, case_start, failure, first_suite, hint_suite, is_in, junit_start, link_case, position, skipped_suite, suite_len, suite_start, suites, suites_from, unlisted_case, unlisted_cases, unlisted_suite};
ghost use Rattle.check_report.specs.Order.{bare_targets, link_of, links_by_file};
ghost use Rattle.check_report.specs.Printing.{printed_junit};

use crate::hints::base_hint_text;
use crate::messages::{NOT_IN_SITEMAP, link_message, rule_id, target_message, unlisted_message};
use crate::names::{page_name, target_name};
use crate::ordered::{Link, bare_targets, links_by_file, ordered_targets};
use crate::paths::path_in;
use crate::piece::{Piece, put_all};
use crate::printing::if_listed;
use crate::put::{NoMemory, push_count, put};
use crate::value::{BaseHint, Broken, Contents, Findings, Place};
use crate::view::Order;
use crate::xml::put_attribute;
use std::alloc::Global;

/// The name of the suite, and the class, of targets without locations.
const NO_FILE: &str = "no file";

/// The name of the suite, and the class, of documents that no sitemap lists.
const SITEMAP: &str = "sitemap";

/// Prints a report as JUnit XML: a test suite for each file with broken links, and a failed test case for each link. The
/// documents that no sitemap lists have a suite of their own, and so has the hint at BASE, as a test case that was skipped. A report
/// without findings has one test case, which passed.
///
/// # Errors
/// Out of memory.
pub fn print_junit(
    alloc: Global,
    findings: &Findings<'_>,
    contents: Contents<'_>,
) -> Result<Vec<u8>, NoMemory>
    ensures { IfOk result (λ text. text.items ≡ printed_junit contents.entry findings.now) }
{
    let targets = ordered_targets(alloc, findings.broken, Order::File)?;
    let mut out = Vec::new(alloc);
    put_start(&mut out, findings.base_hint)?;
    let unlisted = if_listed(contents.lists.unlisted, findings.unlisted);
    put_suites(&mut out, contents.folder, targets.as_slice(), unlisted)?;
    put(&mut out, "</testsuites>\n")?;
    Ok(out)
}

/// Appends the start of the document, and the suite of the hint at BASE, if there is one.
fn put_start(out: &mut Vec<u8>, hint: Option<&BaseHint>) -> Result<(), NoMemory>
    ensures { OnOk result (out.new.items ≡ out.old.items ++ junit_start hint.entry) }
{
    put(
        out,
        "<?xml version=\"1.0\" encoding=\"UTF-8\"?>\n<testsuites name=\"mercator check\">\n",
    )?;
    put_hint_suite(out, hint)
}

/// Appends the suite of the hint at BASE, if there is one.
fn put_hint_suite(out: &mut Vec<u8>, hint: Option<&BaseHint>) -> Result<(), NoMemory>
    ensures { OnOk result (out.new.items ≡ out.old.items ++ hint_suite hint.entry) }
{
    match hint {
        Some(hint) => {
            let text = base_hint_text(*out.allocator(), hint)?;
            put_skipped_suite(out, text.as_str())
        }
        None => Ok(()),
    }
}

/// Appends the suite of a hint with this text: a test case that was skipped, because viewers list those.
#[tactic(auto, unfolding(crate::specs::Junit::skipped_suite))]
fn put_skipped_suite(out: &mut Vec<u8>, text: &str) -> Result<(), NoMemory>
    ensures { OnOk result (out.new.items ≡ out.old.items ++ skipped_suite text.now) }
{
    put_all(
        out,
        &[
            Piece::Text(
                "<testsuite name=\"hint\" tests=\"1\" failures=\"0\" errors=\"0\" skipped=\"1\">\n<testcase name=\"BASE\" classname=\"hint\"><skipped",
            ),
            Piece::Attribute("message", text),
            Piece::Text("/></testcase>\n</testsuite>\n"),
        ],
    )
}

/// Appends the suites: those of the files, that of the targets without locations and that of the documents that no sitemap lists, or
/// one without findings.
fn put_suites(
    out: &mut Vec<u8>,
    folder: &str,
    targets: &[&Broken],
    unlisted: &[String],
) -> Result<(), NoMemory>
    ensures { OnOk result (out.new.items ≡ out.old.items ++ suites folder.now (map (λ target. target.now) targets.now) unlisted.now) }
{
    if targets.is_empty() && unlisted.is_empty() {
        return put(
            out,
            "<testsuite name=\"links\" tests=\"1\" failures=\"0\" errors=\"0\">\n<testcase name=\"no broken links\" classname=\"links\"/>\n</testsuite>\n",
        );
    }
    put_file_suites(out, folder, targets)?;
    put_bare_suite(out, targets)?;
    put_unlisted_suite(out, unlisted)
}

/// Appends the suites of the files with links to these targets.
fn put_file_suites(out: &mut Vec<u8>, folder: &str, targets: &[&Broken]) -> Result<(), NoMemory>
    ensures { OnOk result (out.new.items ≡ out.old.items ++ suites_from folder.now 0 (links_by_file true (map (λ target. target.now) targets.now))) }
{
    let links = links_by_file(*out.allocator(), targets, true)?;
    put_links(out, folder, links.as_slice())
}

/// Appends the suites of these links.
#[tactic(auto, using(crate::proofs::Suites::all_suites))]
fn put_links(out: &mut Vec<u8>, folder: &str, links: &[Link<'_>]) -> Result<(), NoMemory>
    ensures { OnOk result (out.new.items ≡ out.old.items ++ suites_from folder.now 0 (map link_of links.now)) }
{
    let mut next = 0;
    'suites: while next < links.len() {
        next = put_suite_at(out, folder, links, next)?;
    }
    Ok(())
}

/// Appends the suite of the links from this one up to the first one in another file, and returns the index of that one.
#[tactic(auto, using(crate::proofs::Suites::suite_some, crate::proofs::Suites::suite_fits))]
fn put_suite_at(
    out: &mut Vec<u8>,
    folder: &str,
    links: &[Link<'_>],
    start: usize,
) -> Result<usize, NoMemory>
    requires { start < length links.now }
    ensures suites { IfOk result (λ next. out.new.items ++ suites_from folder.now 0 (map link_of (drop next links.now)) ≡ out.old.items ++ suites_from folder.now 0 (map link_of (drop start links.now))) }
    ensures later { IfOk result (λ next. start < next) }
    ensures within { IfOk result (λ next. next ≤ length links.now) }
{
    let (_, rest) = links.split_at(start);
    let count = suite_len(rest);
    let (suite, _) = rest.split_at(count);
    put_file_suite(out, folder, suite)?;
    Ok(start + count)
}

/// The number of links up to the first one in another file than the first.
fn suite_len(links: &[Link<'_>]) -> usize
    requires { 0 < length links.now }
    ensures { result ≡ suite_len (map link_of links.now) }
{
    let place = links[0].place;
    links_in(place, links)
}

/// The number of links up to the first one that is in another file than this location.
fn links_in(place: &Place, links: &[Link<'_>]) -> usize
    ensures { result ≡ length (take_while (λ link. is_in place.now (link_of link)) links.now) }
{
    links.iter().take_while(|link| is_in(place, *link)).count()
}

/// Whether the link is in the file of this location.
fn is_in(place: &Place, link: &Link<'_>) -> bool
    ensures { result ≡ is_in place.now (link_of link.now) }
{
    link.place.file == place.file
}

/// Appends the suite of these links, which are in one file.
fn put_file_suite(out: &mut Vec<u8>, folder: &str, links: &[Link<'_>]) -> Result<(), NoMemory>
    requires { 0 < length links.now }
    ensures { OnOk result (out.new.items ≡ out.old.items ++ first_suite folder.now (map link_of links.now)) }
{
    let place = links[0].place;
    put_suite_start(out, place.file.as_str(), links.len() as u64)?;
    put_cases(out, folder, links)?;
    put(out, "</testsuite>\n")
}

/// Appends the start of a suite with this name and number of test cases.
#[tactic(auto, unfolding(crate::specs::Junit::suite_start))]
fn put_suite_start(out: &mut Vec<u8>, name: &str, count: u64) -> Result<(), NoMemory>
    ensures { OnOk result (out.new.items ≡ out.old.items ++ suite_start name.now count) }
{
    put_all(
        out,
        &[
            Piece::Text("<testsuite"),
            Piece::Attribute("name", name),
            Piece::Counted(" tests=\"", count),
            Piece::Counted("\" failures=\"", count),
            Piece::Text("\" errors=\"0\">\n"),
        ],
    )
}

/// Appends the test cases of these links.
fn put_cases(out: &mut Vec<u8>, folder: &str, links: &[Link<'_>]) -> Result<(), NoMemory>
    ensures { OnOk result (out.new.items ≡ out.old.items ++ flat_map (λ link. link_case folder.now (link_of link)) links.now) }
{
    for link in links {
        put_link_case(out, folder, link.target, link.place)?;
    }
    Ok(())
}

/// Appends the test case of a link.
fn put_link_case(
    out: &mut Vec<u8>,
    folder: &str,
    target: &Broken,
    place: &Place,
) -> Result<(), NoMemory>
    ensures { OnOk result (out.new.items ≡ out.old.items ++ link_case folder.now (target.now, place.now)) }
{
    let alloc = *out.allocator();
    let name = case_name(alloc, target, place)?;
    let path = path_in(alloc, folder, place.file.as_str())?;
    let message = link_message(alloc, target, place)?;
    put_case_start(out, name.as_str(), place.file.as_str())?;
    put_attribute(out, "file", path.as_str())?;
    put_failure(out, rule_id(target.kind), message.as_str())
}

/// The name of a link's test case: its line, its column and its target.
fn case_name(alloc: Global, target: &Broken, place: &Place) -> Result<String, NoMemory>
    ensures { IfOk result (λ name. string_bytes name ≡ case_name target.now place.now) }
{
    let mut name = position(alloc, place)?;
    let shown = target_name(alloc, target)?;
    name.push_str(shown.as_str())?;
    Ok(name)
}

/// The line and the column of a link, each with a colon after it, and a space.
fn position(alloc: Global, place: &Place) -> Result<String, NoMemory>
    ensures { IfOk result (λ text. string_bytes text ≡ position place.now) }
{
    let mut text = String::new(alloc);
    push_count(&mut text, place.line)?;
    text.push_str(":")?;
    push_count(&mut text, place.column)?;
    text.push_str(": ")?;
    Ok(text)
}

/// Appends the start of a test case: its name and its class.
#[tactic(auto, unfolding(crate::specs::Junit::case_start))]
fn put_case_start(out: &mut Vec<u8>, name: &str, class: &str) -> Result<(), NoMemory>
    ensures { OnOk result (out.new.items ≡ out.old.items ++ case_start name.now class.now) }
{
    put_all(
        out,
        &[Piece::Text("<testcase"), Piece::Attribute("name", name)],
    )?;
    put_attribute(out, "classname", class)
}

/// Appends what failed, and the end of the test case.
#[tactic(auto, unfolding(crate::specs::Junit::failure))]
fn put_failure(out: &mut Vec<u8>, rule: &'static str, message: &str) -> Result<(), NoMemory>
    ensures { OnOk result (out.new.items ≡ out.old.items ++ failure rule.now message.now) }
{
    put_all(
        out,
        &[
            Piece::Text("><failure"),
            Piece::Attribute("type", rule),
            Piece::Attribute("message", message),
            Piece::Text(">"),
            Piece::Xml(message),
            Piece::Text("</failure></testcase>\n"),
        ],
    )
}

/// Appends the suite of the targets without locations, if there are any.
fn put_bare_suite(out: &mut Vec<u8>, targets: &[&Broken]) -> Result<(), NoMemory>
    ensures { OnOk result (out.new.items ≡ out.old.items ++ bare_suite (bare_targets (map (λ target. target.now) targets.now))) }
{
    let bare = bare_targets(*out.allocator(), targets)?;
    put_bare(out, bare.as_slice())
}

/// Appends the suite of these targets, if there are any.
#[tactic(auto, using(crate::proofs::Suites::no_bare_suite))]
fn put_bare(out: &mut Vec<u8>, bare: &[&Broken]) -> Result<(), NoMemory>
    ensures { OnOk result (out.new.items ≡ out.old.items ++ bare_suite (map (λ target. target.now) bare.now)) }
{
    if bare.is_empty() {
        return Ok(());
    }
    put_suite_start(out, NO_FILE, bare.len() as u64)?;
    put_bare_cases(out, bare)?;
    put(out, "</testsuite>\n")
}

/// Appends the test cases of these targets.
fn put_bare_cases(out: &mut Vec<u8>, targets: &[&Broken]) -> Result<(), NoMemory>
    ensures { OnOk result (out.new.items ≡ out.old.items ++ flat_map (λ target. bare_case target.now) targets.now) }
{
    for target in targets {
        put_bare_case(out, *target)?;
    }
    Ok(())
}

/// Appends the test case of a target.
fn put_bare_case(out: &mut Vec<u8>, target: &Broken) -> Result<(), NoMemory>
    ensures { OnOk result (out.new.items ≡ out.old.items ++ bare_case target.now) }
{
    let alloc = *out.allocator();
    let name = target_name(alloc, target)?;
    let message = target_message(alloc, target)?;
    put_case_start(out, name.as_str(), NO_FILE)?;
    put_failure(out, rule_id(target.kind), message.as_str())
}

/// Appends the suite of the documents that no sitemap lists, if there are any.
fn put_unlisted_suite(out: &mut Vec<u8>, unlisted: &[String]) -> Result<(), NoMemory>
    ensures { OnOk result (out.new.items ≡ out.old.items ++ unlisted_suite unlisted.now) }
{
    if unlisted.is_empty() {
        return Ok(());
    }
    put_suite_start(out, SITEMAP, unlisted.len() as u64)?;
    put_unlisted_cases(out, unlisted)?;
    put(out, "</testsuite>\n")
}

/// Appends the test cases of these documents.
fn put_unlisted_cases(out: &mut Vec<u8>, unlisted: &[String]) -> Result<(), NoMemory>
    ensures { OnOk result (out.new.items ≡ out.old.items ++ unlisted_cases unlisted.now) }
{
    for document in unlisted {
        put_unlisted_case(out, document.as_str())?;
    }
    Ok(())
}

/// Appends the test case of a document that no sitemap lists.
fn put_unlisted_case(out: &mut Vec<u8>, document: &str) -> Result<(), NoMemory>
    ensures { OnOk result (out.new.items ≡ out.old.items ++ unlisted_case document.now) }
{
    let alloc = *out.allocator();
    let name = page_name(alloc, document)?;
    let message = unlisted_message(alloc, document)?;
    put_case_start(out, name.as_str(), SITEMAP)?;
    put_failure(out, NOT_IN_SITEMAP, message.as_str())
}
