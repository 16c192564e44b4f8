//! Laws about the texts of links and about anchors. A law is a function that does nothing; its clauses are the theorem.
ghost use Rattle.std.specs.Prelude.{◌≡◌, ℕ, List, true, IsPermutation};
ghost use Rattle.crawl_keys.specs.CanonicalText.{resolve};
ghost use Rattle.page_anchors.specs.Indicated.{is_indicated};
ghost use Rattle.document_links.specs.Texts.{fits};
ghost use Rattle.document_links.specs.Written.{clean, written};

/// If the text of a link fits in a line, it leads to the same URL as the value of the link's attribute, from every page.
#[tactic(auto, using(crate::proofs::Parsing::resolve_written))]
pub fn texts_lead_where_values_do()
    ensures { (base text : List ℕ) → fits 5 (clean text) ≡ true → resolve base (written text) ≡ resolve base text }
{}

/// A fragment names an anchor among the ids that are kept of a document if and only if it names one among the ids of the document.
#[tactic(auto, using(crate::proofs::Keeping::indicated_same))]
pub fn anchors_are_the_documents()
    ensures { (ids kept : List (List ℕ)) (fragment : List ℕ) → IsPermutation ids kept → is_indicated kept fragment ≡ is_indicated ids fragment }
{}
