//! Laws about checks. A law is a function that does nothing; its clauses are the theorem.
ghost use Rattle.std.specs.Prelude.{◌≡◌, ℕ, Bool, List, false, map, string_bytes};
ghost use Rattle.std.specs.List.{list_any};
ghost use Rattle.document_links.specs.declared.anchors.PageAnchors.{PageAnchors};
ghost use Rattle.mercator_site.specs.Asks.{Asks};
ghost use Rattle.mercator_site.specs.Checks.{IsCheck};
ghost use Rattle.site_check.specs.Broken.{names_file};
ghost use Rattle.site_check.specs.RowMeanings.{rows_in, way_of};
ghost use Rattle.site_files.specs.declared.alias.Alias.{Alias};
ghost use Rattle.site_files.specs.declared.files.SiteFiles.{SiteFiles};

use site_files::FileBytes;

/// What a check reports of the pages of a saved web depends only on the saved web, the files and the settings, not on the numbers of
/// workers and threads. Two checks of the same saved web with the same settings
///
/// - `results`: have the same results, and those below the top are the same;
/// - `redirects`: report the same redirects;
/// - `unreached`: report the same unreached files;
/// - `pages`: report the same missing pages, each with the same number of pages that link to it, if no entry of the ignore list names a
///   file.
pub fn same_findings_for_any_threads<B: FileBytes>(bytes: &B)
    ensures results { (files : SiteFiles) (name top web : List ℕ) (aliases others : List Alias) (anchors kept : List PageAnchors) (asks : Asks) (broken fails : Bool) (text report : List ℕ) (one : IsCheck files (B.reads bytes.now) name top web aliases anchors asks broken text) (other : IsCheck files (B.reads bytes.now) name top web others kept asks fails report) → (one.pages ≡ other.pages) × (one.own ≡ other.own) }
    ensures redirects { (files : SiteFiles) (name top web : List ℕ) (aliases others : List Alias) (anchors kept : List PageAnchors) (asks : Asks) (broken fails : Bool) (text report : List ℕ) (one : IsCheck files (B.reads bytes.now) name top web aliases anchors asks broken text) (other : IsCheck files (B.reads bytes.now) name top web others kept asks fails report) → map way_of one.findings.checked.redirects.items ≡ map way_of other.findings.checked.redirects.items }
    ensures unreached { (files : SiteFiles) (name top web : List ℕ) (aliases others : List Alias) (anchors kept : List PageAnchors) (asks : Asks) (broken fails : Bool) (text report : List ℕ) (one : IsCheck files (B.reads bytes.now) name top web aliases anchors asks broken text) (other : IsCheck files (B.reads bytes.now) name top web others kept asks fails report) → map string_bytes one.findings.checked.unreached.items ≡ map string_bytes other.findings.checked.unreached.items }
    ensures pages { (files : SiteFiles) (name top web : List ℕ) (aliases others : List Alias) (anchors kept : List PageAnchors) (asks : Asks) (broken fails : Bool) (text report : List ℕ) → list_any names_file asks.entries ≡ false → (one : IsCheck files (B.reads bytes.now) name top web aliases anchors asks broken text) (other : IsCheck files (B.reads bytes.now) name top web others kept asks fails report) → rows_in one.findings.checked.broken.items ≡ rows_in other.findings.checked.broken.items }
{}
