//! Laws about escaped texts and about the natural order. A law is a function that does nothing; its clauses are the theorem.
ghost use Rattle.std.specs.Prelude.{◌≡◌, ℕ, true, List, [], IsUtf8, chars, codes};
ghost use Rattle.std.specs.Cmp.{IsTotalOrder};
ghost use Rattle.std.specs.List.{list_all};
ghost use Rattle.check_report.specs.Escape.{escaped, has_no_c1, is_in_property, is_inert};
ghost use Rattle.std.specs.declared.cmp.Ordering.TheVariants.{Equal, Less};
ghost use Rattle.check_report.specs.Natural.{natural_cmp};
ghost use Rattle.check_report.specs.declared.escape.Escape.{Escape};
ghost use Rattle.check_report.specs.declared.escape.Escape.TheVariants as escape;
ghost use Rattle.shown_text.specs.Shown.{is_printed, is_visible};

/// An escaped text in the HTML page has no `<`, `>`, `"` or `'`, and each `&` starts a character reference.
#[tactic(auto, using(crate::proofs::Inert::html_inert))]
pub fn html_text_is_inert()
    ensures { (text : List ℕ) → is_inert (escaped escape.Html text) ≡ true }
{}

/// An escaped text has no control byte: no C0 control and no DEL. It can neither end a line nor control a terminal.
#[tactic(auto, using(crate::proofs::Controls::escaped_printed))]
pub fn shown_text_has_no_control_byte()
    ensures { (how : Escape) (text : List ℕ) → list_all is_printed (escaped how text) ≡ true }
{}

/// An escaped text has no C1 control, which could also control a terminal.
#[tactic(auto, using(crate::proofs::Controls::none_each, crate::proofs::Controls::char_holds, crate::proofs::Controls::apart_each, crate::proofs::Controls::shown_apart))]
pub fn text_for_people_has_no_c1()
    ensures { (how : Escape) (text : List ℕ) → has_no_c1 (escaped how text) ≡ true }
{}

/// An escaped text has no hidden character: no control character, no separator of lines or paragraphs, and no bidirectional control.
#[tactic(auto, using(crate::proofs::Controls::escaped_visible))]
pub fn escaped_text_has_no_hidden_character()
    ensures { (how : Escape) (text : List ℕ) → IsUtf8 text → list_all is_visible (chars (escaped how text)) ≡ true }
{}

/// An escaped text in an annotation has no line end, and in a property nothing that ends the property.
#[tactic(auto, using(crate::proofs::Controls::escaped_printed, shown_text::proofs::Visible::each_passes, crate::proofs::Inert::property_char_inside))]
pub fn annotation_text_stays_in_its_line()
    ensures message { (text : List ℕ) → list_all is_printed (escaped escape.Data text) ≡ true }
    ensures property { (text : List ℕ) → list_all is_in_property (escaped escape.Property text) ≡ true }
{}
/// The natural order is a total order, and only a text is equal to itself.
#[tactic(auto, using(crate::proofs::Sorting::natural_total))]
pub fn natural_order_is_total()
    ensures total { IsTotalOrder natural_cmp }
    ensures exact { (a b : List ℕ) → natural_cmp a b ≡ Equal → a ≡ b }
{}

/// Named cases of the natural order.
pub fn natural_order_of_names()
    ensures number { natural_cmp (codes "number-2") (codes "number-10") ≡ Less }
    ensures zeros { natural_cmp (codes "007") (codes "7") ≡ Less }
    ensures zeros_within { natural_cmp (codes "a01b") (codes "a1b") ≡ Less }
    ensures rest_first { natural_cmp (codes "a1b") (codes "a01c") ≡ Less }
    ensures empty { natural_cmp [] (codes "0") ≡ Less }
    ensures long { natural_cmp (codes "18446744073709551615") (codes "18446744073709551616") ≡ Less }
    ensures other { natural_cmp (codes "a-1") (codes "a1") ≡ Less }
    ensures letter { natural_cmp (codes "a1") (codes "aa") ≡ Less }
{}
