//! Events and replies as plain data.
use crawl_core::{Event, Refusal, Reply, Text, run};
use std::alloc::Global;

/// An event.
#[derive(Clone, Copy)]
pub enum Call {
    Look(u64),
    Enter(u64),
    Admit(u64, &'static str, u32),
    Back(u64),
    EndSeeds,
    Take(u32),
    Done(u32),
    Close,
}

/// The kind of a reply: for a word whether the gate is open, for a refusal the reason.
#[derive(Clone, Copy, PartialEq, Eq)]
pub enum Kind {
    Open,
    Shut,
    Entered,
    Lost,
    Accepted,
    Seen,
    Count,
    Taken,
    Empty,
    Closed,
    Pending,
    NotOpen,
    Full,
    Nothing,
    Busy,
    NoSuch,
}

/// A reply: its kind, its numbers in their order, and its URL.
type Said<'a> = (Kind, u64, u64, &'a str);

/// An event with its expected reply.
pub type Step = (Call, Said<'static>);

fn event_of(alloc: Global, call: Call) -> Option<Event> {
    Some(match call {
        Call::Look(sender) => Event::Look { sender },
        Call::Enter(sender) => Event::Enter { sender },
        Call::Admit(sender, url, queue) => {
            let url = Text::from_str(alloc, url).ok()?;
            Event::Admit { sender, url, queue }
        }
        Call::Back(sender) => Event::Back { sender },
        Call::EndSeeds => Event::EndSeeds,
        Call::Take(queue) => Event::Take { queue },
        Call::Done(queue) => Event::Done { queue },
        Call::Close => Event::Close,
    })
}

fn said_of(reply: &Reply) -> Said<'_> {
    match reply {
        Reply::Word { count, closed } => {
            let kind = if *closed { Kind::Shut } else { Kind::Open };
            (kind, *count, 0, "")
        }
        Reply::Entered(count) => (Kind::Entered, *count, 0, ""),
        Reply::Lost => (Kind::Lost, 0, 0, ""),
        Reply::Accepted { queue, number } => (Kind::Accepted, u64::from(*queue), *number, ""),
        Reply::Seen => (Kind::Seen, 0, 0, ""),
        Reply::Count(count) => (Kind::Count, *count, 0, ""),
        Reply::Taken(url) => (Kind::Taken, 0, 0, url.as_str()),
        Reply::Empty => (Kind::Empty, 0, 0, ""),
        Reply::Closed => (Kind::Closed, 0, 0, ""),
        Reply::Pending(count) => (Kind::Pending, *count, 0, ""),
        Reply::Refused(Refusal::Closed) => (Kind::NotOpen, 0, 0, ""),
        Reply::Refused(Refusal::Full) => (Kind::Full, 0, 0, ""),
        Reply::Refused(Refusal::Nothing) => (Kind::Nothing, 0, 0, ""),
        Reply::Refused(Refusal::Busy) => (Kind::Busy, 0, 0, ""),
        Reply::Refused(Refusal::NoSuch) => (Kind::NoSuch, 0, 0, ""),
    }
}

/// Whether a run of a machine with this number of subqueues and units has the replies of the steps.
pub fn as_by_run(alloc: Global, workers: u32, max: u64, steps: &[Step]) -> Option<bool> {
    let mut events = Vec::new(alloc);
    for (call, _) in steps {
        events.push(event_of(alloc, *call)?).ok()?;
    }
    let replies = run(alloc, workers, max, &events).ok()?;
    for (reply, (_, said)) in replies.iter().zip(steps) {
        if said_of(reply) != *said {
            return Some(false);
        }
    }
    Some(replies.len() == steps.len())
}
