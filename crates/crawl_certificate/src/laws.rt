//! Laws about certificates. A law is a function that does nothing; its clauses are the theorem.
ghost use Rattle.std.specs.Prelude.{◌≡◌, ℕ, ◌==◌, Bool, false, not, List, [], ◌∷◌, ◌++◌, Option, None, Some, length, count_by, slice_get, All, IsPermutation, bytes_eq};
ghost use Rattle.crawl_queues.specs.declared.entry.Entry.{Entry};
ghost use Rattle.crawl_frontier.specs.Accounts.{AccountId, AllKeepRule};
ghost use Rattle.crawl_keys.specs.Assignment.{subqueue_of};
ghost use Rattle.crawl_pages.specs.declared.page.Page.{Page};
ghost use Rattle.crawl_pages.specs.declared.page.PageResult.{PageResult};
ghost use Rattle.crawl_certificate.specs.CertErrors.{first_error, seed_missing, not_fetched, link_missing};
ghost use Rattle.crawl_certificate.specs.Certificate.{entry_urls, result_urls, IsAscending, ArePages, AreReachable, IsCrawl, NothingLost};
ghost use Rattle.crawl_certificate.specs.ResultPages.{page_in};
ghost use Rattle.crawl_certificate.specs.AccountEntries.{entries_in, entries_of, DifferByUrl};
ghost use Rattle.crawl_certificate.specs.Culprits.{HasNoneAt, IsCulprit};
ghost use Rattle.crawl_certificate.specs.Queues.{AreQueues};
ghost use Rattle.crawl_certificate.specs.declared.culprit.Culprit.{Culprit};
ghost use Rattle.crawl_certificate.specs.declared.error.CertError.{CertError};
ghost use Rattle.crawl_pages.specs.declared.page.Page.TheVariants.{Found, Missing, Moved};
ghost use Rattle.crawl_certificate.specs.declared.error.CertError.TheVariants as wrong;
ghost use Rattle.crawl_certificate.specs.SmallRuns.{url_a, url_b, url_c, url_d, every, all_but_d, entry, result_of, ring_entries, ring_found, gone};
ghost use Rattle.crawl_certificate.specs.Reachable.{AgreeOnReached, WalkOf};

/// If a run has no error, the URLs of the results are exactly those that can be reached, and for each entry there is a walk to its
/// URL with the entry's number of hops.
pub fn no_fault_means_reached()
    ensures urls { (allowed : List ℕ → Bool) (seeds : List (List ℕ)) (entries : List Entry) (results : List PageResult) → first_error allowed seeds entries results ≡ None → AreReachable (page_in results) allowed seeds (result_urls results) }
    ensures hops { (allowed : List ℕ → Bool) (seeds : List (List ℕ)) (entries : List Entry) (results : List PageResult) → first_error allowed seeds entries results ≡ None → All (λ e. WalkOf (page_in results) allowed seeds e.hops e.url) entries }
{}

/// If a run has no error, and each result has the page that a source has at its URL, then the results in ascending order are the
/// pages of the whole crawl: those of every URL that can be reached over the source's pages, and of no other.
pub fn crawl_result()
    ensures { (meaning : List ℕ → Page) (allowed : List ℕ → Bool) (seeds : List (List ℕ)) (entries : List Entry) (results pages : List PageResult) → first_error allowed seeds entries results ≡ None → ArePages meaning results → IsPermutation results pages → IsAscending (result_urls pages) → IsCrawl meaning allowed seeds pages }
{}

/// If each entry is in the subqueue of its URL, and no two entries of a subqueue have the same URL, then no two entries at all have
/// the same URL. For any list of the entries' URLs, the number of each subqueue's entries is then that of the URLs that belong
/// to it. The subqueues of an account satisfy these conditions, since they keep their rule.
pub fn queues_are_counted()
    ensures apart { (subqueue : List ℕ → ℕ) (queues : List (List Entry)) → AreQueues subqueue queues → DifferByUrl (entries_in queues) }
    ensures counts { (subqueue : List ℕ → ℕ) (queues : List (List Entry)) (urls : List (List ℕ)) → AreQueues subqueue queues → IsPermutation (entry_urls (entries_in queues)) urls → (queue : ℕ) (entries : List Entry) → slice_get queues queue ≡ Some entries → count_by (λ u. subqueue u == queue) urls ≡ length entries }
    ensures accounts { (account : AccountId) → AllKeepRule account.workers account.queues → AreQueues (λ url. subqueue_of url account.workers) account.queues }
    // An account with a subqueue for each worker has the entries of all its subqueues.
    ensures whole { (account : AccountId) → length account.queues ≡ account.workers → entries_of account ≡ entries_in account.queues }
{}

/// Tests of the definitions: a small ring of pages, with each error once, and two pages that link to each other and to which no
/// seed leads.
pub fn faults_of_small_runs()
    ensures whole { first_error every (url_a ∷ []) ring_entries (ring_found ++ gone Missing) ≡ None }
    ensures seed { first_error every (url_a ∷ url_d ∷ []) ring_entries (ring_found ++ gone Missing) ≡ Some wrong.SeedMissing }
    ensures fetched { first_error every (url_a ∷ []) ring_entries ring_found ≡ Some wrong.NotFetched }
    ensures link { first_error every (url_a ∷ []) ring_entries (ring_found ++ gone (Found (url_d ∷ []) 0)) ≡ Some wrong.LinkMissing }
    ensures no_seeds { first_error every [] ring_entries (ring_found ++ gone Missing) ≡ Some wrong.Unfounded }
    ensures stray { first_error every (url_a ∷ []) ring_entries (ring_found ++ gone Missing ++ result_of url_d Missing ∷ []) ≡ Some wrong.Unfounded }
    ensures twice { first_error every (url_a ∷ []) ring_entries (ring_found ++ gone Missing ++ gone Missing) ≡ Some wrong.Twice }
    // It is not an error if a seed or link is filtered, but it is one if an entry is not allowed.
    ensures filtered { first_error all_but_d (url_a ∷ url_d ∷ []) ring_entries (ring_found ++ gone (Moved (Some url_d))) ≡ None }
    ensures not_allowed { first_error (λ url. not (bytes_eq url url_b)) (url_a ∷ []) ring_entries (ring_found ++ gone Missing) ≡ Some wrong.Unfounded }
    ensures moved { first_error every (url_a ∷ []) (entry url_a 0 ∷ []) (result_of url_a (Moved (Some url_b)) ∷ []) ≡ Some wrong.LinkMissing }
    ensures cycle { first_error every (url_c ∷ []) (entry url_a 2 ∷ entry url_b 1 ∷ entry url_c 0 ∷ []) (result_of url_a (Found (url_b ∷ []) 0) ∷ result_of url_b (Found (url_a ∷ []) 0) ∷ result_of url_c Missing ∷ []) ≡ Some wrong.Unfounded }
{}

/// If each allowed seed and link is an entry, and each entry has a result, the run has none of the first three errors.
pub fn nothing_lost()
    ensures { (allowed : List ℕ → Bool) (seeds : List (List ℕ)) (entries : List Entry) (results : List PageResult) → NothingLost allowed seeds entries results → (seed_missing allowed seeds entries ≡ false) × (not_fetched entries results ≡ false) × (link_missing allowed entries results ≡ false) }
{}

/// The pages of a whole crawl are always the same list, whatever run found them.
pub fn one_crawl()
    ensures { (meaning : List ℕ → Page) (allowed : List ℕ → Bool) (seeds : List (List ℕ)) (pages others : List PageResult) → IsCrawl meaning allowed seeds pages → IsCrawl meaning allowed seeds others → pages ≡ others }
{}

/// The pages of a whole crawl of one source are those of another, if both have the same page at each URL that can be reached.
pub fn same_crawl()
    ensures { (page other : List ℕ → Page) (allowed : List ℕ → Bool) (seeds : List (List ℕ)) (pages : List PageResult) → AgreeOnReached page other allowed seeds → IsCrawl page allowed seeds pages → IsCrawl other allowed seeds pages }
{}

/// An error of a run has exactly one culprit. If a run does not have an error, no URL has it, so no URL has an error that comes
/// before the culprit's.
pub fn culprits()
    ensures one { (first : Option CertError) (at : CertError → List ℕ → Bool) (culprit other : Culprit) → IsCulprit first at culprit → IsCulprit first at other → culprit ≡ other }
    ensures before { (allowed : List ℕ → Bool) (seeds : List (List ℕ)) (entries : List Entry) (results : List PageResult) → HasNoneAt allowed seeds entries results }
{}
