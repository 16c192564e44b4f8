//! Laws about the rows of a check. A law is a function that does nothing; its clauses are the theorem.
ghost use Rattle.std.specs.Prelude.{◌≡◌, ◌==◌, ◌&&◌, ℕ, Bool, List, false, length, not, string_bytes};
ghost use Rattle.std.specs.List.{list_all, list_any};
ghost use Rattle.check_report.specs.declared.value.Broken.{Broken};
ghost use Rattle.crawl_pages.specs.declared.page.PageResult.{PageResult};
ghost use Rattle.document_links.specs.declared.positions.LinkPlaces.{LinkPlaces};
ghost use Rattle.site_check.specs.Broken.{is_place_ignored, names_file};
ghost use Rattle.site_check.specs.Reported.{AreAllRows, AreReported, TargetRow, is_gone, rows_left};
ghost use Rattle.site_check.specs.declared.input.MapName.{MapName};
ghost use Rattle.site_check.specs.declared.input.Scope.{Scope};
ghost use Rattle.site_files.specs.declared.files.SiteFiles.{SiteFiles};

/// Without an entry that names a file, no row and no location is left out.
#[tactic(auto, using(crate::proofs::RowsLeft::all_left))]
pub fn all_rows_stay_without_file_entries()
    ensures { (entries : List (List ℕ)) (rows : List TargetRow) → list_any names_file entries ≡ false → rows_left entries rows ≡ rows }
{}

/// So the reported rows are rows for exactly the missing pages, anchors, invalid links and URLs outside the site that no entry matches.
pub fn all_rows_are_reported_without_file_entries()
    ensures { (front : List ℕ) (entries : List (List ℕ)) (scope : Scope) (places : List LinkPlaces) (rooted : Bool) (maps : List MapName) (files : SiteFiles) (results found : List PageResult) (rows : List Broken) (unused_ones : List (List ℕ)) → list_any names_file entries ≡ false → AreReported front entries scope places rooted maps files results found rows unused_ones → AreAllRows front entries scope places rooted maps files results found rows unused_ones }
{}

/// A row is left out if and only if it has a location and entries that name a file match all of its locations.
#[tactic(auto, using(crate::proofs::RowsLeft::gone_if_all))]
pub fn a_row_goes_with_its_last_location()
    ensures { (entries : List (List ℕ)) (row : TargetRow) → is_gone entries row ≡ (not (length row.places == 0) && list_all (λ place. is_place_ignored entries row.target (string_bytes place.file)) row.places) }
{}
