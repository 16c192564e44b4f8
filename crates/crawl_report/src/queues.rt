//! How many URLs each queue had, in lines of text.
ghost use Rattle.std.specs.Prelude.{◌≡◌, IfOk};
ghost use Rattle.crawl_report.specs.Today.{queue_lines};

use crate::out::Out;
use crate::printing::with_queues;
use crawl_pages::NoMemory;
use std::alloc::Global;

/// A line `queue Q COUNT` for each count in order, Q its number from 0, each ended by LF.
#[tactic(auto, using(crate::proofs::Printed::printed_in_one_chunk, crate::proofs::Format::queues_in_one_chunk))]
pub fn queue_text(alloc: Global, counts: &[u64]) -> Result<Vec<u8>, NoMemory>
    ensures { IfOk result (λ text. text.items ≡ queue_lines counts.now) }
{
    let lines = with_queues(Out::new(alloc, false), counts)?;
    Ok(lines.into_bytes())
}
