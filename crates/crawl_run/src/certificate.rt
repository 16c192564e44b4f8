//! The certificate of a run, computed by threads if its workers ran in threads.
ghost use Rattle.std.specs.Prelude.{◌≡◌, ℕ, List, IfErr, IfOk};
ghost use Rattle.crawl_certificate.specs.AccountEntries.{entries_of};
ghost use Rattle.crawl_certificate.specs.Certificate.{ArePages, IsCrawl, NothingLost, result_urls};
ghost use Rattle.crawl_keys.specs.HostFilter.{allows};
ghost use Rattle.crawl_pages.specs.declared.page.Page.{Page};
ghost use Rattle.crawl_run.specs.Crawls.{AreCounts, ComesIn, IsJudgedAt, IsOfRun};
ghost use Rattle.link_offers.specs.Losses.{all_losses};
ghost use Rattle.crawl_run.specs.JudgedRuns.{CountsLosses, IsRun};
ghost use Rattle.crawl_run.specs.Losses.{IsLost};
ghost use Rattle.crawl_run.specs.declared.settings.Mode.{Mode};

use crate::crawled::Crawled;
use crate::failure::CrawlFailure;
use crate::run_output::{RunOutput, counts_of};
use crate::settings::CrawlSettings;
use crawl_certificate::{CertifySettings, certify_with};
use crawl_keys::CanonUrl;
use std::alloc::Global;
use std::thread::Threads;

/// The number of threads that share the certificate of a crawl in threads.
const THREADS: usize = 4;

/// Certifies what a run found. If neither seeder nor workers lost anything, every seed and link is accepted and fetched.
pub fn crawled_of<R: Threads + Sync>(
    rt: &R,
    alloc: Global,
    settings: &CrawlSettings<'_>,
    seeds: &[CanonUrl],
    ran: RunOutput,
) -> Result<Crawled, CrawlFailure>
    requires lost { all_losses ran.losses ≡ 0 → NothingLost (allows settings.now.filter.now) seeds.now (entries_of ran.account) ran.results.items }
    ensures pages { (meaning : List ℕ → Page) → ArePages meaning ran.results.items → IfOk result (λ crawled. IsCrawl meaning (allows settings.now.filter.now) seeds.now crawled.result) }
    ensures counts { IfOk result (λ crawled. AreCounts ran.account.workers (result_urls crawled.result) crawled.counts.items) }
    ensures errors { IfErr result (λ failure. IsOfRun failure.error) }
    ensures mode { (mode : Mode) → IfErr result (λ failure. ComesIn mode failure.error) }
    ensures judged { (meaning : List ℕ → Page) → ArePages meaning ran.results.items → IfErr result (λ failure. IsJudgedAt meaning (allows settings.now.filter.now) seeds.now failure.error failure.culprit) }
    ensures lost { IfErr result (λ failure. IsLost failure.error failure.losses) }
    ensures counted { (workers : ℕ) (meaning : List ℕ → Page) → IsRun workers (allows settings.now.filter.now) meaning seeds.now (entries_of ran.account) ran.results.items ran.losses → IfErr result (λ failure. CountsLosses workers (allows settings.now.filter.now) meaning seeds.now failure.error failure.culprit failure.losses) }
{
    let RunOutput {
        account,
        results,
        losses,
    } = ran;
    let how = CertifySettings {
        threads: threads_of(settings),
        is_lossless: losses.is_none(),
    };
    match certify_with(rt, how, settings.filter, seeds, &account, results) {
        Ok(result) => {
            let counts = counts_of(alloc, &account)?;
            Ok(Crawled {
                result,
                counts,
                account,
            })
        }
        Err(culprit) => Err(CrawlFailure::of_culprit(culprit, losses)),
    }
}

/// Returns the number of threads that share the certificate. If no worker had a thread, none is started for it.
fn threads_of(settings: &CrawlSettings<'_>) -> usize {
    if settings.has_threads() { THREADS } else { 1 }
}
