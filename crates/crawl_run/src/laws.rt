//! Laws that connect the definitions of this crate and of the crates below it. A law is a function that does nothing; its clauses
//! are the theorem.
ghost use Rattle.std.specs.Prelude.{◌≡◌, ℕ, ◌+◌, ◌-◌, ◌^◌, List, length, map, ◌<◌, Bool, false, All, Contains, flat_map};
ghost use Rattle.crawl_certificate.specs.AccountEntries.{entries_in};
ghost use Rattle.crawl_certificate.specs.CertErrors.{seed_missing, not_fetched, link_missing};
ghost use Rattle.crawl_certificate.specs.Certificate.{NothingLost};
ghost use Rattle.crawl_frontier.specs.Accounts.{Accounts};
ghost use Rattle.crawl_frontier.specs.Parts.{SenderId};
ghost use Rattle.crawl_queues.specs.declared.entry.Entry.{Entry};
ghost use Rattle.crawl_pages.specs.declared.page.Page.{Page};
ghost use Rattle.crawl_pages.specs.declared.page.PageResult.{PageResult};
ghost use Rattle.link_offers.specs.Logs.{AllLogged};
ghost use Rattle.link_offers.specs.declared.losses.Losses.{Losses};
ghost use Rattle.crawl_run.specs.JudgedRuns.{IsRun};
ghost use Rattle.crawl_run.specs.LosslessRuns.{Share, IsWithoutLoss};

/// In a run that loses nothing, nothing is missing.
///
/// Suppose that all workers of a frontier began with nothing taken and lost nothing, and that the run has an account. Suppose also
/// that the sender of the seeds has a line in its log for each seed that the filter allows, which is so if the offers returned Ok
/// ([`crawl_workers::laws::what_is_logged`]). Then the certificate of all results finds none of its first three errors.
pub fn nothing_lost_lacks_nothing()
    ensures whole { (workers : ℕ) (allowed : List ℕ → Bool) (meaning : List ℕ → Page) (seeds : List (List ℕ)) (shares : List Share) (senders : List SenderId) (queues : List (List Entry))
        → 0 < workers → Accounts workers (map (λ share. share.now) shares) senders queues → All (IsWithoutLoss workers allowed meaning) shares
        → (sender : SenderId) → Contains senders sender → AllLogged workers allowed sender.book.log seeds
        → NothingLost allowed seeds (entries_in queues) (flat_map (λ share. share.found) shares) }
    ensures errors { (workers : ℕ) (allowed : List ℕ → Bool) (meaning : List ℕ → Page) (seeds : List (List ℕ)) (shares : List Share) (senders : List SenderId) (queues : List (List Entry))
        → 0 < workers → Accounts workers (map (λ share. share.now) shares) senders queues → All (IsWithoutLoss workers allowed meaning) shares
        → (sender : SenderId) → Contains senders sender → AllLogged workers allowed sender.book.log seeds
        → (seed_missing allowed seeds (entries_in queues) ≡ false) × (not_fetched (entries_in queues) (flat_map (λ share. share.found) shares) ≡ false)
        × (link_missing allowed (entries_in queues) (flat_map (λ share. share.found) shares) ≡ false) }
{
    crawl_certificate::laws::nothing_lost();
}

/// A run that [`crawl_with`](crate::crawl_with) reports as failed lost exactly the URLs of its entries without a
/// result: their fetch failed, or there was no memory for the result. If the count has reached its maximum, more may be lost.
pub fn urls_without_a_result_are_lost()
    ensures { (workers : ℕ) (allowed : List ℕ → Bool) (meaning : List ℕ → Page) (seeds : List (List ℕ)) (entries : List Entry) (results : List PageResult) (losses : Losses)
        → IsRun workers allowed meaning seeds entries results losses → losses.failed + losses.unkept < 2 ^ 64 - 1 → length entries ≡ length results + losses.failed + losses.unkept }
{}
