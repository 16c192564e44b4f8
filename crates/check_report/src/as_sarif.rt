//! Prints a report as SARIF 2.1.0.
ghost use Rattle.std.specs.Prelude.{◌≡◌, ◌++◌, IfOk, OnOk, flat_map, map, string_bytes, true};
ghost use Rattle.json.specs.Print.{print};
ghost use Rattle.json.specs.Tree.{json_tokens, members_tokens};
ghost use Rattle.shown_text.specs.Shown.{shown};
ghost use Rattle.check_report.specs.Hints.{base_hint_text};
ghost use Rattle.check_report.specs.Order.{bare_targets, link_of, links_by_file};
ghost use Rattle.check_report.specs.Printing.{printed_sarif};
ghost use Rattle.check_report.specs.Sarif.{artifact, bare_result, base_object, bases, folder_file, hint_member, invocations, invocations_start, link_result, locations, notification, results, sarif_head, sarif_start, source_file, start_tokens, unlisted_result};

use crate::hints::base_hint_text;
use crate::mark::{Mark, put_marks};
use crate::messages::{NOT_IN_SITEMAP, link_message, rule_id, target_message, unlisted_message};
use crate::ordered::{Link, bare_targets, links_by_file, ordered_targets};
use crate::paths::{base_url, path_in, path_uri};
use crate::printing::if_listed;
use crate::put::{NoMemory, put};
use crate::value::{BaseHint, Broken, Contents, Findings, Place};
use crate::view::Order;
use json::Writer;
use shown_text::shown;
use std::alloc::Global;

/// The document up to the names of base URLs and to the results, with the tool and a rule for each kind of finding.
pub static HEAD: &str =
    r#"{"$schema":"https://json.schemastore.org/sarif-2.1.0.json","version":"2.1.0","runs":[{"tool":{"driver":{"name":"mercator","rules":[{"id":"missing-page","shortDescription":{"text":"A link to a page that does not exist"}},{"id":"missing-anchor","shortDescription":{"text":"A link to an anchor that its page does not have"}},{"id":"not-a-url","shortDescription":{"text":"A link that is not a URL"}},{"id":"unknown-scheme","shortDescription":{"text":"A link with an unknown scheme"}},{"id":"local-file","shortDescription":{"text":"A link to a file of the reader's computer"}},{"id":"leaves-the-folder","shortDescription":{"text":"A link that leads above the folder"}},{"id":"outside-base","shortDescription":{"text":"A link to the host of BASE that does not lead below BASE"}},{"id":"not-in-map","shortDescription":{"text":"A link to a page that a mapped folder does not have"}},{"id":"not-in-sitemap","shortDescription":{"text":"A document that no sitemap lists"}}]}},"columnKind":"unicodeCodePoints","#;

/// Prints a report as SARIF: a result for each broken link and for each document that no sitemap lists, and a notification of the hint
/// at BASE. The path of a file starts with the folder, unless the URL of the sources is given.
///
/// # Errors
/// Out of memory.
pub fn print_sarif(
    alloc: Global,
    findings: &Findings<'_>,
    contents: Contents<'_>,
) -> Result<Vec<u8>, NoMemory>
    ensures { IfOk result (λ text. text.items ≡ printed_sarif contents.entry findings.now) }
{
    let targets = ordered_targets(alloc, findings.broken, Order::File)?;
    let begun = with_head(alloc, contents.source_url, findings.base_hint)?;
    let unlisted = if_listed(contents.lists.unlisted, findings.unlisted);
    let mut all = with_results(begun, contents, targets.as_slice(), unlisted)?;
    put(&mut all, "}]}\n")?;
    Ok(all)
}

/// The document up to the results.
fn with_head(alloc: Global, source_url: &str, hint: Option<&BaseHint>) -> Result<Vec<u8>, NoMemory>
    ensures { IfOk result (λ text. text.items ≡ sarif_start source_url.now hint.entry) }
{
    let mut out = Vec::new(alloc);
    put(&mut out, head())?;
    let based = with_bases(out, source_url)?;
    let mut noted = with_invocations(based, hint)?;
    put(&mut noted, "\"results\":")?;
    Ok(noted)
}

/// The text before the names of base URLs.
#[tactic(auto, unfolding(crate::specs::Sarif::sarif_head))]
fn head() -> &'static str
    ensures { result.now ≡ sarif_head }
{
    HEAD
}

/// Appends the name of the base URL of the sources, if that is given.
fn with_bases(mut out: Vec<u8>, source_url: &str) -> Result<Vec<u8>, NoMemory>
    ensures { IfOk result (λ more. more.items ≡ out.items ++ bases source_url.now) }
{
    if source_url.is_empty() {
        return Ok(out);
    }
    put(&mut out, "\"originalUriBaseIds\":")?;
    let mut more = with_base(out, source_url)?;
    put(&mut more, ",")?;
    Ok(more)
}

/// Appends the object of the base URL of the sources.
fn with_base(out: Vec<u8>, source_url: &str) -> Result<Vec<u8>, NoMemory>
    ensures { IfOk result (λ more. more.items ≡ out.items ++ print (json_tokens (base_object source_url.now))) }
{
    let url = base_url(*out.allocator(), source_url)?;
    let mut writer = Writer::new(out);
    put_marks(
        &mut writer,
        &[
            Mark::BeginObject,
            Mark::Key("SOURCES"),
            Mark::BeginObject,
            Mark::Text("uri", url.as_str()),
            Mark::EndObject,
            Mark::EndObject,
        ],
    )?;
    Ok(writer.into_inner())
}

/// Appends the member with the hint at BASE, if there is one.
fn with_invocations(out: Vec<u8>, hint: Option<&BaseHint>) -> Result<Vec<u8>, NoMemory>
    ensures { IfOk result (λ more. more.items ≡ out.items ++ invocations hint.entry) }
{
    match hint {
        Some(hint) => with_hint(out, hint),
        None => Ok(out),
    }
}

/// Appends the member with the hint at BASE, and a comma.
fn with_hint(mut out: Vec<u8>, hint: &BaseHint) -> Result<Vec<u8>, NoMemory>
    ensures { IfOk result (λ more. more.items ≡ out.items ++ hint_member hint.now) }
{
    put(&mut out, invocations_start())?;
    let mut more = with_notification(out, hint)?;
    put(&mut more, "]}],")?;
    Ok(more)
}

/// The text before the object of the hint.
#[tactic(auto, unfolding(crate::specs::Sarif::invocations_start))]
fn invocations_start() -> &'static str
    ensures { result.now ≡ invocations_start }
{
    "\"invocations\":[{\"executionSuccessful\":true,\"toolConfigurationNotifications\":["
}

/// Appends the object of the hint at BASE.
fn with_notification(out: Vec<u8>, hint: &BaseHint) -> Result<Vec<u8>, NoMemory>
    ensures { IfOk result (λ more. more.items ≡ out.items ++ print (json_tokens (notification hint.now))) }
{
    let text = shown_hint(*out.allocator(), hint)?;
    let mut writer = Writer::new(out);
    put_marks(
        &mut writer,
        &[
            Mark::BeginObject,
            Mark::Text("level", "note"),
            Mark::Key("message"),
            Mark::BeginObject,
            Mark::Text("text", text.as_str()),
            Mark::EndObject,
            Mark::EndObject,
        ],
    )?;
    Ok(writer.into_inner())
}

/// The text of the hint, with escapes for hidden characters.
fn shown_hint(alloc: Global, hint: &BaseHint) -> Result<String, NoMemory>
    ensures { IfOk result (λ text. string_bytes text ≡ shown (base_hint_text hint.now)) }
{
    let text = base_hint_text(alloc, hint)?;
    shown(alloc, text.as_str())
}

/// Appends the array of the results.
fn with_results(
    out: Vec<u8>,
    contents: Contents<'_>,
    targets: &[&Broken],
    unlisted: &[String],
) -> Result<Vec<u8>, NoMemory>
    ensures { IfOk result (λ more. more.items ≡ out.items ++ print (json_tokens (results contents.entry (map (λ target. target.now) targets.now) unlisted.now))) }
{
    let alloc = *out.allocator();
    let mut writer = Writer::new(out);
    put_results(alloc, &mut writer, contents, targets, unlisted)?;
    Ok(writer.into_inner())
}

/// Writes the array of the results.
fn put_results(
    alloc: Global,
    out: &mut Writer,
    contents: Contents<'_>,
    targets: &[&Broken],
    unlisted: &[String],
) -> Result<(), NoMemory>
    ensures tokens { OnOk result (out.new.tokens ≡ out.old.tokens ++ json_tokens (results contents.entry (map (λ target. target.now) targets.now) unlisted.now)) }
    ensures before { out.new.before ≡ out.old.before }
{
    out.begin_array()?;
    put_links(alloc, out, contents, targets)?;
    put_bare(alloc, out, targets)?;
    put_unlisted(alloc, out, unlisted)?;
    out.end_array()
}

/// Writes a result for each link to these targets, by file.
fn put_links(
    alloc: Global,
    out: &mut Writer,
    contents: Contents<'_>,
    targets: &[&Broken],
) -> Result<(), NoMemory>
    ensures tokens { OnOk result (out.new.tokens ≡ out.old.tokens ++ flat_map json_tokens (map (link_result contents.entry) (links_by_file true (map (λ target. target.now) targets.now)))) }
    ensures before { out.new.before ≡ out.old.before }
{
    let links = links_by_file(alloc, targets, true)?;
    put_link_results(alloc, out, contents, links.as_slice())
}

/// Writes a result for each of these links.
fn put_link_results(
    alloc: Global,
    out: &mut Writer,
    contents: Contents<'_>,
    links: &[Link<'_>],
) -> Result<(), NoMemory>
    ensures tokens { OnOk result (out.new.tokens ≡ out.old.tokens ++ flat_map (λ link. json_tokens (link_result contents.entry (link_of link))) links.now) }
    ensures before { out.new.before ≡ out.old.before }
{
    for link in links {
        put_link(alloc, out, contents, link.target, link.place)?;
    }
    Ok(())
}

/// Writes the result of a link.
fn put_link(
    alloc: Global,
    out: &mut Writer,
    contents: Contents<'_>,
    target: &Broken,
    place: &Place,
) -> Result<(), NoMemory>
    ensures tokens { OnOk result (out.new.tokens ≡ out.old.tokens ++ json_tokens (link_result contents.entry (target.now, place.now))) }
    ensures before { out.new.before ≡ out.old.before }
{
    let message = link_message(alloc, target, place)?;
    let text = shown(alloc, message.as_str())?;
    put_result_start(out, rule_id(target.kind), text.as_str())?;
    put_result_end(alloc, out, contents, place)
}

/// Writes the start of a result: its rule, its level and its message.
fn put_result_start(out: &mut Writer, rule: &'static str, text: &str) -> Result<(), NoMemory>
    ensures tokens { OnOk result (out.new.tokens ≡ out.old.tokens ++ start_tokens rule.now text.now) }
    ensures before { out.new.before ≡ out.old.before }
{
    put_marks(
        out,
        &[
            Mark::BeginObject,
            Mark::Text("ruleId", rule),
            Mark::Text("level", "error"),
            Mark::Key("message"),
            Mark::BeginObject,
            Mark::Text("text", text),
            Mark::EndObject,
        ],
    )
}

/// Writes the member with the location of a link, and the end of its result.
fn put_result_end(
    alloc: Global,
    out: &mut Writer,
    contents: Contents<'_>,
    place: &Place,
) -> Result<(), NoMemory>
    ensures tokens { OnOk result (out.new.tokens ≡ out.old.tokens ++ members_tokens (locations contents.entry place.now)) }
    ensures before { out.new.before ≡ out.old.before }
{
    put_marks(
        out,
        &[
            Mark::Key("locations"),
            Mark::BeginArray,
            Mark::BeginObject,
            Mark::Key("physicalLocation"),
            Mark::BeginObject,
            Mark::Key("artifactLocation"),
        ],
    )?;
    put_artifact(alloc, out, contents, place.file.as_str())?;
    put_marks(
        out,
        &[
            Mark::Key("region"),
            Mark::BeginObject,
            Mark::Count("startLine", place.line),
            Mark::Count("startColumn", place.column),
            Mark::EndObject,
            Mark::EndObject,
            Mark::EndObject,
            Mark::EndArray,
            Mark::EndObject,
        ],
    )
}

/// Writes the object with the file of a location.
fn put_artifact(
    alloc: Global,
    out: &mut Writer,
    contents: Contents<'_>,
    file: &str,
) -> Result<(), NoMemory>
    ensures tokens { OnOk result (out.new.tokens ≡ out.old.tokens ++ json_tokens (artifact contents.entry file.now)) }
    ensures before { out.new.before ≡ out.old.before }
{
    if contents.source_url.is_empty() {
        put_folder_file(alloc, out, contents.folder, file)
    } else {
        put_source_file(alloc, out, file)
    }
}

/// Writes the object of a file in the folder.
fn put_folder_file(
    alloc: Global,
    out: &mut Writer,
    folder: &str,
    file: &str,
) -> Result<(), NoMemory>
    ensures tokens { OnOk result (out.new.tokens ≡ out.old.tokens ++ json_tokens (folder_file folder.now file.now)) }
    ensures before { out.new.before ≡ out.old.before }
{
    let path = path_in(alloc, folder, file)?;
    let uri = path_uri(alloc, path.as_str())?;
    put_marks(
        out,
        &[
            Mark::BeginObject,
            Mark::Text("uri", uri.as_str()),
            Mark::EndObject,
        ],
    )
}

/// Writes the object of a file of the sources.
fn put_source_file(alloc: Global, out: &mut Writer, file: &str) -> Result<(), NoMemory>
    ensures tokens { OnOk result (out.new.tokens ≡ out.old.tokens ++ json_tokens (source_file file.now)) }
    ensures before { out.new.before ≡ out.old.before }
{
    let uri = path_uri(alloc, file)?;
    put_marks(
        out,
        &[
            Mark::BeginObject,
            Mark::Text("uri", uri.as_str()),
            Mark::Text("uriBaseId", "SOURCES"),
            Mark::EndObject,
        ],
    )
}

/// Writes a result for each of these targets that has no locations.
fn put_bare(alloc: Global, out: &mut Writer, targets: &[&Broken]) -> Result<(), NoMemory>
    ensures tokens { OnOk result (out.new.tokens ≡ out.old.tokens ++ flat_map json_tokens (map bare_result (bare_targets (map (λ target. target.now) targets.now)))) }
    ensures before { out.new.before ≡ out.old.before }
{
    let bare = bare_targets(alloc, targets)?;
    put_bare_results(alloc, out, bare.as_slice())
}

/// Writes a result for each of these targets, which have no locations.
fn put_bare_results(alloc: Global, out: &mut Writer, targets: &[&Broken]) -> Result<(), NoMemory>
    ensures tokens { OnOk result (out.new.tokens ≡ out.old.tokens ++ flat_map (λ target. json_tokens (bare_result target.now)) targets.now) }
    ensures before { out.new.before ≡ out.old.before }
{
    for target in targets {
        put_bare_target(alloc, out, *target)?;
    }
    Ok(())
}

/// Writes the result of a target without locations.
fn put_bare_target(alloc: Global, out: &mut Writer, target: &Broken) -> Result<(), NoMemory>
    ensures tokens { OnOk result (out.new.tokens ≡ out.old.tokens ++ json_tokens (bare_result target.now)) }
    ensures before { out.new.before ≡ out.old.before }
{
    let message = target_message(alloc, target)?;
    let text = shown(alloc, message.as_str())?;
    put_result_start(out, rule_id(target.kind), text.as_str())?;
    out.end_object()
}

/// Writes a result for each of these documents, which no sitemap lists.
fn put_unlisted(alloc: Global, out: &mut Writer, unlisted: &[String]) -> Result<(), NoMemory>
    ensures tokens { OnOk result (out.new.tokens ≡ out.old.tokens ++ flat_map (λ document. json_tokens (unlisted_result (string_bytes document))) unlisted.now) }
    ensures before { out.new.before ≡ out.old.before }
{
    for document in unlisted {
        put_unlisted_document(alloc, out, document.as_str())?;
    }
    Ok(())
}

/// Writes the result of a document that no sitemap lists.
fn put_unlisted_document(alloc: Global, out: &mut Writer, document: &str) -> Result<(), NoMemory>
    ensures tokens { OnOk result (out.new.tokens ≡ out.old.tokens ++ json_tokens (unlisted_result document.now)) }
    ensures before { out.new.before ≡ out.old.before }
{
    let message = unlisted_message(alloc, document)?;
    let text = shown(alloc, message.as_str())?;
    put_result_start(out, NOT_IN_SITEMAP, text.as_str())?;
    out.end_object()
}
