//! Everything that a run left.
ghost use Rattle.std.specs.Prelude.{◌≡◌, ◌∷◌, ◌++◌, [], IfErr, IfOk, OnOk};
ghost use Rattle.crawl_frontier.specs.Accounts.{Accounts};
ghost use Rattle.crawl_run.specs.Crawls.{ComesIn, CountedBelow, IsUncertified};
ghost use Rattle.crawl_run.specs.Losses.{losses_with};
ghost use Rattle.crawl_run.specs.LosslessRuns.{all_closed, all_found};
ghost use Rattle.crawl_run.specs.declared.settings.Mode.{Mode};
ghost use Rattle.link_offers.specs.Losses.{both_losses};

use crate::error::CrawlError;
use crawl_frontier::{Account, ClosedWorker, Frontier, Name, Sender};
use crawl_pages::PageResult;
use crawl_workers::WorkerEnd;
use link_offers::Losses;
use std::alloc::{AllocError, Global};

/// Everything that a run left: its account, the results of all workers, and the losses of seeder and workers.
#[derive(Drop)]
pub struct RunOutput {
    pub account: Account,
    pub results: Vec<PageResult>,
    pub losses: Losses,
}

/// Collects what a run of this frontier left: closed workers and results in the order of `ends`, and the losses, added to those of
/// the seeds. So the results are in the order of an account's entries, in which the certificate searches for them.
#[tactic(auto, using(std::proofs::lemmas::List::append_assoc))]
pub fn output_of<K: Name>(
    alloc: Global,
    frontier: Frontier<K>,
    ends: Vec<WorkerEnd<K>>,
    sender: Sender<K>,
    refused: Losses,
) -> Result<RunOutput, CrawlError>
    ensures workers { IfOk result (λ ran. ran.account.workers ≡ K.workers) }
    ensures account { IfOk result (λ ran. Accounts K.workers (all_closed ends.items) (sender ∷ []) ran.account.queues) }
    ensures found { IfOk result (λ ran. ran.results.items ≡ all_found ends.items) }
    ensures losses { IfOk result (λ ran. ran.losses ≡ losses_with refused ends.items) }
    ensures errors { IfErr result IsUncertified }
    ensures mode { (mode : Mode) → IfErr result (ComesIn mode) }
{
    let mut closed = Vec::new(alloc);
    let mut results = Vec::new(alloc);
    let mut losses = refused;
    for end in ends {
        push_end(end, &mut closed, &mut results, &mut losses)?;
    }
    let mut senders = Vec::new(alloc);
    senders.push(sender)?;
    let account = frontier.finish(closed, senders)?;
    Ok(RunOutput {
        account,
        results,
        losses,
    })
}

/// Adds what a worker left to what the workers before it left.
fn push_end<K: Name>(
    end: WorkerEnd<K>,
    closed: &mut Vec<ClosedWorker<K>>,
    results: &mut Vec<PageResult>,
    losses: &mut Losses,
) -> Result<(), AllocError>
    ensures closed { OnOk result (closed.new.items ≡ closed.old.items ++ end.closed ∷ []) }
    ensures found { OnOk result (results.new.items ≡ results.old.items ++ end.results.items) }
    ensures losses { OnOk result (losses.new ≡ both_losses losses.old end.losses) }
{
    let WorkerEnd {
        closed: worker,
        results: found,
        lost: _,
        losses: lost,
    } = end;
    *losses = losses.plus(lost);
    closed.push(worker)?;
    push_found(found, results)
}

/// Appends a worker's results to those so far. The first worker's list is kept as it is, without a copy.
fn push_found(mut found: Vec<PageResult>, results: &mut Vec<PageResult>) -> Result<(), AllocError>
    ensures { OnOk result (results.new.items ≡ results.old.items ++ found.items) }
{
    if results.is_empty() {
        *results = found;
        return Ok(());
    }
    results.append(&mut found)
}

/// Returns the number of entries of each queue.
#[tactic(auto, using(crate::proofs::RunResults::one_more_counted))]
pub fn counts_of(alloc: Global, account: &Account) -> Result<Vec<u64>, AllocError>
    ensures { IfOk result (λ counts. CountedBelow account.now.workers account.now counts.items) }
{
    let mut counts = Vec::new(alloc);
    for queue in 0..account.workers() {
        counts.push(account.queue(queue).len() as u64)?;
    }
    Ok(counts)
}
