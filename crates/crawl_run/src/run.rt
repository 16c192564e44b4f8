//! A crawl on a frontier that a type parameter identifies.
ghost use Rattle.std.specs.Prelude.{◌≡◌, ◌⊎◌, ◌≤◌, true, false, ℕ, List, [], ◌∷◌, ◌++◌, IfOk, IfErr};
ghost use Rattle.crawl_certificate.specs.AccountEntries.{entries_of};
ghost use Rattle.crawl_certificate.specs.Certificate.{ArePages, IsCrawl, NothingLost, result_urls};
ghost use Rattle.crawl_frontier.specs.Parts.{SeederId};
ghost use Rattle.crawl_keys.specs.HostFilter.{allows};
ghost use Rattle.link_offers.specs.Logs.{AllLogged, Grows, HasLine};
ghost use Rattle.link_offers.specs.Losses.{all_losses};
ghost use Rattle.crawl_workers.specs.Runs.{AllRan};
ghost use Rattle.crawl_workers.specs.declared.error.RunError.TheVariants as unrun;
ghost use Rattle.crawl_run.specs.Crawls.{AreCounts, ComesIn, IsJudgedAt, IsOfRun, IsUncertified};
ghost use Rattle.crawl_run.specs.JudgedRuns.{AreOffered, CountsLosses, IsRun};
ghost use Rattle.crawl_run.specs.Losses.{IsLost};
ghost use Rattle.crawl_run.specs.declared.settings.Mode.TheVariants as modes;

use crate::certificate::crawled_of;
use crate::crawled::Crawled;
use crate::error::CrawlError;
use crate::failure::CrawlFailure;
use crate::run_output::{RunOutput, output_of};
use crate::settings::CrawlSettings;
use crawl_frontier::{Frontier, Name, Seeder, Setup, Worker};
use crawl_keys::CanonUrl;
use crawl_pages::SessionFetch;
use crawl_workers::{RunError, WorkerEnd, run_threads, run_turns};
use link_offers::Losses;
use std::alloc::Global;
use std::sync::Wait;
use std::thread::Threads;

/// Crawls on the frontier of this setup: offers the seeds, runs the workers, and certifies the account.
#[tactic(auto, using(std::proofs::lemmas::Result::err_from_is_err_and))]
pub fn crawl_named<K: Name + Send + Sync, F: SessionFetch + Sync, R: Threads + Wait + Sync>(
    rt: &R,
    alloc: Global,
    setup: Setup,
    fetcher: &F,
    settings: &CrawlSettings<'_>,
    seeds: &[CanonUrl],
) -> Result<Crawled, CrawlFailure>
    requires gate { setup.gate ≡ K.gate }
    requires workers { setup.workers ≡ K.workers }
    requires queues { setup.queues ≡ K.queues }
    requires filter { settings.now.filter.now ≡ K.filter }
    ensures pages { IfOk result (λ crawled. IsCrawl (F.meaning fetcher.now) (allows settings.now.filter.now) seeds.now crawled.result) }
    ensures counts { IfOk result (λ crawled. AreCounts setup.workers (result_urls crawled.result) crawled.counts.items) }
    ensures errors { IfErr result (λ failure. IsOfRun failure.error) }
    ensures mode { IfErr result (λ failure. ComesIn settings.now.mode failure.error) }
    ensures judged { IfErr result (λ failure. IsJudgedAt (F.meaning fetcher.now) (allows settings.now.filter.now) seeds.now failure.error failure.culprit) }
    ensures lost { IfErr result (λ failure. IsLost failure.error failure.losses) }
    ensures counted { IfErr result (λ failure. CountsLosses setup.workers (allows settings.now.filter.now) (F.meaning fetcher.now) seeds.now failure.error failure.culprit failure.losses) }
{
    let ran = run_from::<K, F, R>(rt, alloc, setup, fetcher, settings, seeds)?;
    crawled_of(rt, alloc, settings, seeds, ran)
}

/// Offers the seeds to a frontier of this setup, and runs all its workers.
#[tactic(auto, using(crate::proofs::RunResults::all_pages))]
fn run_from<K: Name + Send + Sync, F: SessionFetch + Sync, R: Threads + Wait + Sync>(
    rt: &R,
    alloc: Global,
    setup: Setup,
    fetcher: &F,
    settings: &CrawlSettings<'_>,
    seeds: &[CanonUrl],
) -> Result<RunOutput, CrawlError>
    requires gate { setup.gate ≡ K.gate }
    requires workers { setup.workers ≡ K.workers }
    requires queues { setup.queues ≡ K.queues }
    requires filter { settings.now.filter.now ≡ K.filter }
    ensures pages { IfOk result (λ ran. ArePages (F.meaning fetcher.now) ran.results.items) }
    ensures workers { IfOk result (λ ran. ran.account.workers ≡ setup.workers) }
    // If neither seeder nor workers lost anything, every seed and link is accepted and fetched.
    ensures lost { IfOk result (λ ran. all_losses ran.losses ≡ 0 → NothingLost (allows settings.now.filter.now) seeds.now (entries_of ran.account) ran.results.items) }
    ensures counted { IfOk result (λ ran. IsRun K.workers (allows K.filter) (F.meaning fetcher.now) seeds.now (entries_of ran.account) ran.results.items ran.losses) }
    ensures errors { IfErr result IsUncertified }
    ensures mode { IfErr result (ComesIn settings.now.mode) }
{
    let (frontier, workers, mut seeder) = Frontier::<K>::new(alloc, setup, settings.filter)?;
    // A seed whose offer failed may still be found by a link, and the certificate tests that.
    let refused = offer_seeds(rt, &frontier, &mut seeder, seeds);
    let sender = seeder.end(&frontier);
    let ends = run(rt, alloc, &frontier, workers, fetcher, settings)?;
    output_of(alloc, frontier, ends, sender, refused)
}

/// Offers the seeds in order, and returns the losses by cause.
#[tactic(auto, using(std::proofs::lemmas::List::take_all))]
fn offer_seeds<K: Name, R: Wait>(
    rt: &R,
    frontier: &Frontier<K>,
    seeder: &mut Seeder<K>,
    seeds: &[CanonUrl],
) -> Losses
    ensures logged { all_losses result ≡ 0 → AllLogged K.workers (allows K.filter) seeder.new.book.log seeds.now }
    ensures offered { AreOffered K.workers (allows K.filter) seeder.old seeder.new seeds.now result }
{
    let mut lost = Losses::none();
    for seed in seeds {
        lost = offer_seed(rt, frontier, seeder, seed, lost);
    }
    lost
}

/// Offers a seed, and returns the losses so far with it. A seed that the filter does not allow is not lost.
fn offer_seed<K: Name, R: Wait>(
    rt: &R,
    frontier: &Frontier<K>,
    seeder: &mut Seeder<K>,
    seed: &CanonUrl,
    before: Losses,
) -> Losses
    ensures grows { Grows seeder.old.book seeder.new.book }
    ensures line { all_losses result ≡ 0 → (all_losses before ≡ 0) × (allows K.filter seed.now ≡ true → HasLine K.workers seeder.new.book.log seed.now) }
    ensures filtered { allows K.filter seed.now ≡ false → result ≡ before }
    // This is true whatever seeds were offered before it.
    ensures offered { (first : SeederId) (seeds : List (List ℕ)) → AreOffered K.workers (allows K.filter) first seeder.old seeds before → AreOffered K.workers (allows K.filter) first seeder.new (seeds ++ seed.now ∷ []) result }
{
    match seeder.offer(rt, frontier, seed) {
        Ok(_) => before,
        Err(refused) => before.with_refusal(refused),
    }
}

/// Runs all workers to their ends.
fn run<K: Name + Send + Sync, F: SessionFetch + Sync, R: Threads + Wait + Sync>(
    rt: &R,
    alloc: Global,
    frontier: &Frontier<K>,
    workers: Vec<Worker<K>>,
    fetcher: &F,
    settings: &CrawlSettings<'_>,
) -> Result<Vec<WorkerEnd<K>>, RunError>
    ensures ran { IfOk result (λ ends. AllRan K.workers (allows K.filter) (F.meaning fetcher.now) workers.items ends.items) }
    ensures mode { IfErr result (λ error. (error ≡ unrun.NoMemory) ⊎ (settings.now.mode ≡ modes.Threads)) }
    ensures one_worker { settings.now.workers ≤ 1 → IfErr result (λ error. error ≡ unrun.NoMemory) }
{
    if settings.has_threads() {
        run_threads(rt, alloc, frontier, workers, fetcher)
    } else {
        run_turns(rt, alloc, frontier, workers, fetcher)
    }
}
