//! Laws about fragments. A law is a function that does nothing; its clauses are the theorem.
ghost use Rattle.std.specs.Prelude.{◌≡◌, ℕ, ◌<◌};
ghost use Rattle.page_anchors.specs.Escapes.{is_escaped};
ghost use Rattle.percent_encoding.specs.AsciiSet.{should_percent_encode};

use crate::indicated::IN_FRAGMENT;

/// The bytes that are percent-encoded in a fragment are those that a URL parser encodes there.
pub fn escapes_are_the_standards()
    ensures { (b : ℕ) → b < 256 → should_percent_encode IN_FRAGMENT b ≡ is_escaped b }
{}
