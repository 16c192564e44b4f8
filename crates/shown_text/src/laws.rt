//! Laws about shown texts. A law is a function that does nothing; its clauses are the theorem.
ghost use Rattle.std.specs.Prelude.{◌≡◌, ℕ, true, List, IsUtf8, chars};
ghost use Rattle.std.specs.List.{list_all};
ghost use Rattle.shown_text.specs.Shown.{is_printed, is_visible, is_visible_or_lf, shown, shown_lines};

/// A shown text has no hidden character, and one of several lines none but LF.
#[tactic(auto, using(crate::proofs::Visible::shown_visible, crate::proofs::Visible::lines_visible))]
pub fn shown_text_has_no_hidden_character()
    ensures line { (text : List ℕ) → IsUtf8 text → list_all is_visible (chars (shown text)) ≡ true }
    ensures lines { (text : List ℕ) → IsUtf8 text → list_all is_visible_or_lf (chars (shown_lines text)) ≡ true }
{}

/// A shown text has no byte of a C0 control and no DEL, even if it is not UTF-8. It can neither end a line nor control a terminal.
#[tactic(auto, using(crate::proofs::Visible::shown_printed))]
pub fn shown_text_has_no_control_byte()
    ensures { (text : List ℕ) → list_all is_printed (shown text) ≡ true }
{}

/// A text without hidden characters is shown as it is.
#[tactic(auto, using(crate::proofs::Visible::shown_same, crate::proofs::Visible::lines_same))]
pub fn visible_text_is_unchanged()
    ensures line { (text : List ℕ) → IsUtf8 text → list_all is_visible (chars text) ≡ true → shown text ≡ text }
    ensures lines { (text : List ℕ) → IsUtf8 text → list_all is_visible_or_lf (chars text) ≡ true → shown_lines text ≡ text }
{}

/// A shown text is UTF-8.
#[tactic(auto, using(crate::proofs::Visible::shown_utf8))]
pub fn shown_text_is_utf8()
    ensures line { (text : List ℕ) → IsUtf8 text → IsUtf8 (shown text) }
    ensures lines { (text : List ℕ) → IsUtf8 text → IsUtf8 (shown_lines text) }
{}
