//! Named cases of a machine that no script can show. `tests/random.py` compares random scripts with an independent model.
mod steps;

use crawl_core::{Core, CoreError, Text, Word, run};
use std::alloc::Global;
use std::test::Fail;
use steps::{Call, Kind, Step, as_by_run};

const MOST_UNITS: u64 = 1_099_511_627_776;

static LIMITS: [(u32, u64, Option<CoreError>); 7] = [
    (0, 1, Some(CoreError::BadWorkers)),
    (513, 1, Some(CoreError::BadWorkers)),
    (513, 0, Some(CoreError::BadWorkers)),
    (1, 0, Some(CoreError::BadMax)),
    (1, MOST_UNITS + 1, Some(CoreError::BadMax)),
    (512, MOST_UNITS, None),
    (1, 1, None),
];

// The errors of a machine with these limits, and of a run without events.
fn is_limit(alloc: Global, workers: u32, max: u64, refusal: Option<CoreError>) -> bool {
    Core::new(alloc, workers, max).err() == refusal
        && match run(alloc, workers, max, &[]) {
            Ok(replies) => refusal.is_none() && replies.is_empty(),
            Err(error) => refusal == Some(error),
        }
}

#[test]
fn core_limits(rt: HostRuntime) {
    for (workers, max, refusal) in LIMITS {
        assert!(rt;
            is_limit(rt.alloc(), workers, max, refusal),
            "{workers}, {max}"
        );
    }
}

const A: &str = "http://a.test/";

const B: &str = "http://b.test/";

static CLOSES_WHEN_DRAINED: [Step; 9] = [
    (Call::Look(2), (Kind::Open, 1, 0, "")),
    (Call::Enter(2), (Kind::Entered, 2, 0, "")),
    (Call::Admit(2, A, 1), (Kind::Accepted, 1, 0, "")),
    (Call::EndSeeds, (Kind::Count, 1, 0, "")),
    (Call::Take(1), (Kind::Taken, 0, 0, A)),
    (Call::Done(1), (Kind::Count, 0, 0, "")),
    (Call::Close, (Kind::Closed, 0, 0, "")),
    (Call::Look(2), (Kind::Shut, 0, 0, "")),
    (Call::Enter(2), (Kind::NotOpen, 0, 0, "")),
];

// Events that no script can have, since the URL in a script determines its subqueue.
static QUEUES_OF_ANY_NAME: [Step; 10] = [
    (Call::Look(1), (Kind::Open, 1, 0, "")),
    (Call::Enter(1), (Kind::Entered, 2, 0, "")),
    (Call::Admit(1, A, 2), (Kind::NoSuch, 0, 0, "")),
    (Call::Admit(1, A, 0), (Kind::Accepted, 0, 0, "")),
    (Call::Look(1), (Kind::Open, 2, 0, "")),
    (Call::Enter(1), (Kind::Entered, 3, 0, "")),
    (Call::Admit(1, A, 1), (Kind::Accepted, 1, 0, "")),
    (Call::Admit(3, A, 2), (Kind::NoSuch, 0, 0, "")),
    (Call::Take(1), (Kind::Taken, 0, 0, A)),
    (Call::Take(0), (Kind::Taken, 0, 0, A)),
];

#[test]
fn closes_when_drained(rt: HostRuntime) {
    assert!(rt; as_by_run(rt.alloc(), 2, 9, &CLOSES_WHEN_DRAINED) == Some(true));
    assert!(rt; as_by_run(rt.alloc(), 2, 9, &QUEUES_OF_ANY_NAME) == Some(true));
}

#[test]
fn texts_and_gate_words(rt: HostRuntime) -> Result<(), Fail> {
    let url = Text::from_str(rt.alloc(), A)?;
    assert!(rt; url.as_str() == A && url.clone()? == url);
    let (count, closed) = (1, false);
    assert!(rt;
        Word { count, closed }
            != Word {
                count,
                closed: true
            }
    );
    Ok(())
}
