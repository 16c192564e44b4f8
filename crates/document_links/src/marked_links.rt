//! The links of a document with a `#`.
ghost use Rattle.std.specs.Prelude.{◌≡◌, ◌==◌, ◌<◌, ◌≤◌, ◌+◌, [], IfOk, OnOk, drop, length, slice_index_or};
ghost use Rattle.std.specs.List.{prefix_len};
ghost use Rattle.document_links.specs.Keeping.{AreMarked, AreMore, AreTargets};

use crate::bytes::after_front;
use crate::raw_links::RawLinks;
use crate::targets::Targets;
use memchr::memchr;
use std::alloc::{AllocError, Global};

/// A link with a `#`.
#[derive(Clone, Copy)]
pub(crate) struct MarkedLink {
    /// The number of its target.
    pub(crate) target: usize,
    /// Its index among the links.
    pub(crate) index: usize,
    /// The number of bytes up to and with its first `#`.
    begin: usize,
}

impl MarkedLink {
    /// The text after the link's first `#`.
    pub(crate) fn fragment(self, raw: &RawLinks) -> &[u8]
        ensures { result.now ≡ drop self.begin (slice_index_or raw.now.texts self.index []) }
    {
        after_front(self.begin, raw.text_or_empty(self.index))
    }
}

/// The links with a `#`, ordered by the numbers of their targets.
pub(crate) fn marked_links<'t>(
    alloc: Global,
    raw: &'t RawLinks,
    targets: &mut Targets<'t>,
) -> Result<Vec<MarkedLink>, AllocError>
    requires { AreTargets targets.old }
    ensures more { OnOk result (AreMore targets.old targets.new) }
    ensures links { IfOk result (λ links. AreMarked targets.new raw.now.texts (length raw.now.texts) links.items) }
{
    let mut all = find_marked(alloc, raw, targets)?;
    all.sort_by(|a: &MarkedLink, b: &MarkedLink| a.target.cmp(&b.target))?;
    Ok(all)
}

/// The links with a `#`, in order.
#[tactic(auto, using(crate::proofs::Numbering::none_marked, crate::proofs::Numbering::no_more, crate::proofs::Numbering::yet_more))]
fn find_marked<'t>(
    alloc: Global,
    raw: &'t RawLinks,
    targets: &mut Targets<'t>,
) -> Result<Vec<MarkedLink>, AllocError>
    requires { AreTargets targets.old }
    ensures more { OnOk result (AreMore targets.old targets.new) }
    ensures links { IfOk result (λ links. AreMarked targets.new raw.now.texts (length raw.now.texts) links.items) }
{
    let mut all = Vec::new(alloc);
    for index in 0..raw.len() {
        push_marked(raw, index, targets, &mut all)?;
    }
    Ok(all)
}

/// Appends the link with this index if it has a `#`.
#[tactic(auto, using(crate::proofs::Numbering::no_more, crate::proofs::Numbering::not_marked, crate::proofs::Numbering::one_marked, crate::proofs::Trimming::sign_at, crate::proofs::Trimming::no_sign))]
fn push_marked<'t>(
    raw: &'t RawLinks,
    index: usize,
    targets: &mut Targets<'t>,
    all: &mut Vec<MarkedLink>,
) -> Result<(), AllocError>
    requires within { index < length raw.now.texts }
    requires targets { AreTargets targets.old }
    requires links { AreMarked targets.old raw.now.texts index all.old.items }
    ensures more { OnOk result (AreMore targets.old targets.new) }
    ensures targets { OnOk result (AreTargets targets.new) }
    ensures links { OnOk result (AreMarked targets.new raw.now.texts (index + 1) all.new.items) }
{
    let text = raw.text(index);
    let Some(sign) = memchr(b'#', text) else {
        return Ok(());
    };
    let begin = sign + 1;
    let target = targets.number_of(&text[..begin])?;
    all.push(MarkedLink {
        target,
        index,
        begin,
    })?;
    Ok(())
}

/// The number of links at the front that lead to this target.
pub(crate) fn run_len(target: usize, links: &[MarkedLink]) -> usize
    ensures value { result ≡ prefix_len (λ link. link.target == target) links.now }
    ensures within { result ≤ length links.now }
{
    links
        .iter()
        .take_while(|link| link.target == target)
        .count()
}
