//! Prints the results of a check in the form that was chosen.
ghost use Rattle.std.specs.Prelude.{◌≡◌, IfOk};
ghost use Rattle.mercator_site.specs.Checks.{printed_check};

use crate::options::CheckForm;
use check_report::{
    Contents, Findings, print_annotations, print_json, print_junit, print_page, print_sarif,
    print_text,
};
use std::alloc::{AllocError, Global};

/// Prints the results and the optional lists.
///
/// # Errors
/// Out of memory.
pub(crate) fn print_check(
    alloc: Global,
    findings: &Findings<'_>,
    contents: Contents<'_>,
    form: CheckForm,
) -> Result<Vec<u8>, AllocError>
    ensures { IfOk result (λ text. text.items ≡ printed_check form contents.entry findings.now) }
{
    match form {
        CheckForm::Text { colour } => print_text(alloc, findings, contents, colour),
        CheckForm::Json => print_json(alloc, findings, contents),
        CheckForm::Annotations => print_annotations(alloc, findings, contents),
        CheckForm::Page => print_page(alloc, findings, contents),
        CheckForm::Junit => print_junit(alloc, findings, contents),
        CheckForm::Sarif => print_sarif(alloc, findings, contents),
    }
}
