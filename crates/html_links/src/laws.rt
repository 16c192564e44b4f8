//! Laws about the links of a document. A law is a function that does nothing; its clauses are the theorem.
ghost use Rattle.std.specs.Prelude.{◌≡◌, ℕ, Bool, List, length};
ghost use Rattle.html_links.specs.declared.context.Syntax.{Syntax};
ghost use Rattle.html_links.specs.Links.{links_of};
ghost use Rattle.html_links.specs.Positions.{positions_of};

/// Each link of a document has one position: the number of positions is that of the links.
#[tactic(auto, using(crate::proofs::Counting::one_for_each))]
pub fn each_link_has_a_position()
    ensures { (styles : Bool) (syntax : Syntax) (document : List ℕ) → length (positions_of styles syntax document) ≡ length (links_of styles syntax document) }
{}
