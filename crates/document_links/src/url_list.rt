//! The links of a list of URLs.
ghost use Rattle.std.specs.Prelude.{◌≡◌, ◌++◌, OnOk};
ghost use Rattle.url.specs.Input.{trim_c0_control_and_space};
ghost use Rattle.document_links.specs.Feeds.{text_links};
ghost use Rattle.document_links.specs.UrlLists.{line_positions, url_line_positions, url_lines_of};

use crate::bytes::split_byte;
use crate::cleaning::{trimmed, trimmed_start};
use crate::feed::push_text;
use crate::raw_links::RawLinks;
use std::alloc::AllocError;

/// Appends the links of a list of URLs: each line without white space at its ends, if something is left.
#[tactic(auto, using(crate::proofs::Feeding::last_line, crate::proofs::Feeding::next_line, crate::proofs::Feeding::last_position, html_links::proofs::Documents::cut_shorter))]
pub(crate) fn push_url_lines(text: &[u8], raw: &mut RawLinks) -> Result<(), AllocError>
    ensures texts { OnOk result (raw.new.texts ≡ raw.old.texts ++ url_lines_of text.now) }
    ensures positions { OnOk result (raw.new.positions.items ≡ raw.old.positions.items ++ url_line_positions text.now) }
{
    let mut rest = text;
    'lines: loop {
        let Some((line, more)) = split_byte(b'\n', rest) else {
            return push_line(text.len(), rest.len(), rest, raw);
        };
        push_line(text.len(), rest.len(), line, raw)?;
        rest = more;
    }
}

/// Appends the link of a line in a list with `end` bytes, of which `left` are from the start of the line on.
fn push_line(end: usize, left: usize, line: &[u8], raw: &mut RawLinks) -> Result<(), AllocError>
    ensures texts { OnOk result (raw.new.texts ≡ raw.old.texts ++ text_links (trim_c0_control_and_space line.now)) }
    ensures positions { OnOk result (raw.new.positions.items ≡ raw.old.positions.items ++ line_positions end left line.now) }
{
    let space = line.len().saturating_sub(trimmed_start(line).len());
    let position = end.saturating_sub(left.saturating_sub(space));
    push_text(position, trimmed(line), raw)
}
