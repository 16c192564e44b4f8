//! Laws about sources and seeds. A law is a function that does nothing; its clauses are the theorem.
ghost use Rattle.std.specs.Prelude.{◌≡◌, ℕ, false, List, [], Some, None, All, Contains};
ghost use Rattle.std.specs.Ordering.{is_lt, nat_cmp};
ghost use Rattle.std.specs.Cmp.Lexicographic.{slice_cmp};
ghost use Rattle.text_lines.specs.LeastError.{SoundAfter, IsLeastError};
ghost use Rattle.crawl_sources.specs.SeedErrors.{error_after};
ghost use Rattle.crawl_sources.specs.Seeds.{first_error};
ghost use Rattle.crawl_sources.specs.Sources.{least};
ghost use Rattle.crawl_sources.specs.declared.seeds.SeedsError.{SeedsError};

/// The least of several texts is one of them, and none of them is less. There is a least text if there is any text.
#[tactic(auto, using(crate::proofs::Least::least_among, crate::proofs::Least::least_below, crate::proofs::Least::least_none))]
pub fn least_text()
    ensures among { (texts : List (List ℕ)) (text : List ℕ) → least texts ≡ Some text → Contains texts text }
    ensures below { (texts : List (List ℕ)) (text : List ℕ) → least texts ≡ Some text → All (λ t. is_lt (slice_cmp nat_cmp t text) ≡ false) texts }
    ensures none { (texts : List (List ℕ)) → least texts ≡ None → texts ≡ [] }
{}

/// The error of a seeds file is the first check that its first line with an error fails. If there is no error, no line fails a
/// check.
#[tactic(auto, using(crate::proofs::Errors::least_error, crate::proofs::Errors::sound_lines))]
pub fn first_fault_is_least()
    ensures error { (lines : List (List ℕ)) (error : SeedsError) → first_error 1 lines ≡ Some error → IsLeastError error_after lines error }
    ensures sound { (lines : List (List ℕ)) → first_error 1 lines ≡ None → SoundAfter error_after [] lines }
{}
