//! The line that `mercator key` prints.
ghost use Rattle.std.specs.Prelude.{◌≡◌, ◌≤◌, IfOk, IfErr, string_bytes};
ghost use Rattle.crawl_keys.specs.CanonicalText.{canonical};
ghost use Rattle.crawl_keys.specs.Outcome.{IsRefusal};
ghost use Rattle.crawl_keys.specs.Limits.{subqueues_limit};
ghost use Rattle.mercator.specs.KeyLine.{IsKeyLine, key_line, parts_line};

use crawl_keys::{CanonUrl, KeyError, canonical};
use std::alloc::{AllocError, Global};

/// Returns the line that `mercator key` prints: the canonical URL of `text`, its host key and the number of its queue among
/// `subqueues` queues, separated by single spaces and ended by LF.
///
/// For `http://A.test:80/x/../y#f` and 2 queues the line is `http://a.test/y a.test 1`.
///
/// # Errors
/// Those of [`canonical`]. `NoMemory` also if there is no memory for the line.
pub fn key_line(alloc: Global, text: &str, subqueues: u32) -> Result<Vec<u8>, KeyError>
    requires some_subqueue { 1 ≤ subqueues }
    requires few_subqueues { subqueues ≤ subqueues_limit }
    ensures line { IfOk result (λ line. IsKeyLine text.now subqueues line.items) }
    ensures err { IfErr result (IsRefusal KeyError.NoMemory (canonical text.now)) }
{
    let url = canonical(alloc, text)?;
    let line = line_of(alloc, &url, subqueues)?;
    Ok(line.into_bytes())
}

/// Returns the line for a canonical URL.
fn line_of(alloc: Global, url: &CanonUrl, subqueues: u32) -> Result<String, AllocError>
    requires some_subqueue { 1 ≤ subqueues }
    requires few_subqueues { subqueues ≤ subqueues_limit }
    ensures { IfOk result (λ line. string_bytes line ≡ key_line url.now subqueues) }
{
    parts_line(alloc, url.as_str(), url.host_key(), url.subqueue(subqueues))
}

/// Returns the line for the text of a URL, its host key and the number of its queue, from 0.
fn parts_line(alloc: Global, text: &str, host: &str, subqueue: u32) -> Result<String, AllocError>
    ensures { IfOk result (λ line. string_bytes line ≡ parts_line text.now host.now subqueue) }
{
    let mut line = String::from_str(alloc, text)?;
    line.push_str(" ")?;
    line.push_str(host)?;
    writeln!(line, " {subqueue}")?;
    Ok(line)
}
