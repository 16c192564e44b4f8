//! Laws: what is in the account of a run that lost nothing. A law is a function that does nothing; its clauses are the theorem.
ghost use Rattle.std.specs.Prelude.{◌≡◌, ℕ, ◌<◌, Bool, List, [], Ok, Result, All};
ghost use Rattle.crawl_pages.specs.declared.page.Page.{Page};
ghost use Rattle.crawl_pages.specs.declared.page.PageResult.{PageResult};
ghost use Rattle.crawl_pages.specs.Pages.{links_of};
ghost use Rattle.crawl_queues.specs.declared.entry.Entry.{Entry};
ghost use Rattle.crawl_frontier.specs.declared.error.OfferError.{OfferError};
ghost use Rattle.crawl_frontier.specs.declared.offer.Offer.{Offer};
ghost use Rattle.crawl_frontier.specs.Accounts.{At, IsPart, Accounts};
ghost use Rattle.crawl_queues.specs.Books.{BookId};
ghost use Rattle.crawl_frontier.specs.Offers.{OfferBooks};
ghost use Rattle.crawl_frontier.specs.Parts.{WorkerId, SenderId};
ghost use Rattle.link_offers.specs.Logs.{HasLine, Grows};
ghost use Rattle.crawl_workers.specs.Lossless.{result_urls, entry_urls, IsAccepted, AllAccepted};
ghost use Rattle.crawl_workers.specs.Ran.{Ran};

/// For each worker that lost nothing, in a run that has an account: if it had taken nothing before, its results have exactly the
/// URLs that its queue accepted, in order; and each allowed link of each of its results was accepted.
pub fn worker_without_loss()
    ensures fetched { (workers : ℕ) (allowed : List ℕ → Bool) (meaning : List ℕ → Page) (closed : List WorkerId) (senders : List SenderId) (queues : List (List Entry))
        → Accounts workers closed senders queues
        → (k : ℕ) (start now : WorkerId) (results : List PageResult) → At closed k now → Ran workers allowed meaning start now results 0 → start.taken ≡ []
        → (es : List Entry) × At queues now.queue es × (result_urls results ≡ entry_urls es) }
    ensures linked { (workers : ℕ) (allowed : List ℕ → Bool) (meaning : List ℕ → Page) (closed : List WorkerId) (senders : List SenderId) (queues : List (List Entry))
        → Accounts workers closed senders queues
        → (k : ℕ) (start now : WorkerId) (results : List PageResult) → At closed k now → Ran workers allowed meaning start now results 0
        → All (λ (r : PageResult). AllAccepted workers allowed queues (links_of r.page)) results }
{}

/// For each worker and sender of a run that has an account: if its log has a line for a URL, this URL was accepted. So a seed whose
/// offer returned `Ok` was accepted, because the offer adds a line to the log, and the log only grows.
pub fn what_is_logged()
    ensures accepted { (workers : ℕ) (closed : List WorkerId) (senders : List SenderId) (queues : List (List Entry)) → 0 < workers
        → Accounts workers closed senders queues
        → (b : BookId) → IsPart closed senders b → (url : List ℕ) → HasLine workers b.log url → IsAccepted workers queues url }
    ensures offered { (workers : ℕ) (b b' : BookId) (url : List ℕ) (hops : ℕ) (o : Offer) → OfferBooks workers b b' url hops (Ok o) → HasLine workers b'.log url }
    ensures grows { (workers : ℕ) (b b' : BookId) (url : List ℕ) (hops : ℕ) (r : Result Offer OfferError) → OfferBooks workers b b' url hops r → Grows b b' }
    ensures stays { (workers : ℕ) (b b' : BookId) (url : List ℕ) → Grows b b' → HasLine workers b.log url → HasLine workers b'.log url }
{}
