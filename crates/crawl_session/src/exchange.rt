//! The events of a request to the machine, one after another.
ghost use Rattle.std.specs.Prelude.{◌≡◌, IfOk, OnErr, IsOk};
ghost use Rattle.crawl_core.specs.declared.event.Event.{Event};
ghost use Rattle.crawl_session.specs.Exchanges as spec;
ghost use Rattle.crawl_session.specs.Steps.{Comes, GivesUp, GoesBack, Leads};
ghost use Rattle.crawl_session.specs.declared.answer.Answer.{Answer};

use crawl_core::{Core, Event, NoMemory, Refusal, Reply, Text};
use std::alloc::AllocError;

/// The one sender of a session's offers: its client.
const CLIENT: u64 = 0;

/// Offers the URL to the queue.
///
/// # Errors
/// Out of memory. The frontier is then as before, but for the word that its client remembers.
#[tactic(auto, using(crate::proofs::Steps::gives_up_immediately))]
pub fn offer(core: &mut Core, url: Text, queue: u32) -> Result<Reply, NoMemory>
    ensures comes { IfOk result (λ reply. Comes (λ state. spec.offering state url queue) core.old (Answer.Replied reply) core.new) }
    ensures err { OnErr result (GivesUp core.old core.new) }
{
    let _word = core.step(&Event::Look { sender: CLIENT })?;
    enter(core, url, queue)
}

/// Enters the client at the gate, and admits the URL by the client's new unit. A reply other than `entered` ends the offer.
#[tactic(auto, using(crate::proofs::Steps::goes_back_immediately))]
fn enter(core: &mut Core, url: Text, queue: u32) -> Result<Reply, NoMemory>
    ensures comes { IfOk result (λ reply. Comes (λ state. spec.entering state url queue) core.old (Answer.Replied reply) core.new) }
    ensures err { OnErr result (GoesBack core.old core.new) }
{
    let reply = core.step(&Event::Enter { sender: CLIENT })?;
    if is_entered(&reply) {
        return admit(core, url, queue);
    }
    Ok(reply)
}

/// Admits the URL by the client's unit, which is given back if it does not go with the URL.
fn admit(core: &mut Core, url: Text, queue: u32) -> Result<Reply, NoMemory>
    ensures comes { IfOk result (λ reply. Comes (λ state. spec.admitting state url queue) core.old (Answer.Replied reply) core.new) }
    ensures err { OnErr result (Leads core.old (Event.Back spec.client) core.new) }
{
    let sender = CLIENT;
    let Ok(reply) = core.step(&Event::Admit { sender, url, queue }) else {
        return Err(give_back(core));
    };
    if is_seen(&reply) {
        let _left = core.step(&Event::Back { sender })?;
    }
    Ok(reply)
}

/// Takes the URL that has waited longest in the queue. If the queue is empty, tries to close the gate.
pub fn next(core: &mut Core, queue: u32) -> Result<Reply, NoMemory>
    ensures comes { IfOk result (λ reply. Comes (λ state. spec.taking state queue) core.old (Answer.Replied reply) core.new) }
    ensures succeeds { IsOk result }
{
    let reply = core.step(&Event::Take { queue })?;
    if is_empty(&reply) {
        return core.step(&Event::Close);
    }
    Ok(reply)
}

/// Reports that the URL that the queue is busy with is done.
pub fn finish(core: &mut Core, queue: u32) -> Result<Reply, NoMemory>
    ensures comes { IfOk result (λ reply. Comes (λ state. spec.done_with state queue) core.old (Answer.Replied reply) core.new) }
    ensures err { OnErr result (core.new ≡ core.old) }
{
    core.step(&Event::Done { queue })
}

/// Reports that no more seeds will come, which gives back the opening unit.
pub fn end_seeds(core: &mut Core) -> Result<Reply, NoMemory>
    ensures comes { IfOk result (λ reply. Comes spec.seeds_ended core.old (Answer.Replied reply) core.new) }
    ensures err { OnErr result (core.new ≡ core.old) }
{
    core.step(&Event::EndSeeds)
}

/// The URL that the subqueue is busy with, once more.
pub fn again(core: &Core, queue: u32) -> Result<Reply, NoMemory>
    ensures { IfOk result (λ reply. Comes (λ state. spec.again state queue) core.now (Answer.Replied reply) core.now) }
{
    match core.in_fetch(queue) {
        None => Ok(Reply::Refused(Refusal::NoSuch)),
        Some(None) => Ok(Reply::Refused(Refusal::Nothing)),
        Some(Some(url)) => Ok(Reply::Taken(url.clone()?)),
    }
}

/// After an allocation failed: the client's unit is given back.
#[tactic(auto, using(crate::proofs::Steps::gave_back))]
fn give_back(core: &mut Core) -> NoMemory
    ensures { Leads core.old (Event.Back spec.client) core.new }
{
    match core.step(&Event::Back { sender: CLIENT }) {
        Ok(_) => AllocError,
        Err(refused) => refused,
    }
}

/// Whether the reply gives the client a unit.
fn is_entered(reply: &Reply) -> bool
    ensures { result ≡ spec.is_entered reply.now }
{
    matches!(reply, Reply::Entered(_))
}

/// Whether the URL was accepted before, so that the client still holds its unit.
fn is_seen(reply: &Reply) -> bool
    ensures { result ≡ spec.is_seen reply.now }
{
    matches!(reply, Reply::Seen)
}

/// Whether no URL waits in the queue.
fn is_empty(reply: &Reply) -> bool
    ensures { result ≡ spec.is_empty reply.now }
{
    matches!(reply, Reply::Empty)
}
