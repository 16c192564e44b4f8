//! The right to push onto a queue, and the right to pop from it.
use crate::entry::Message;
use crate::growing::{Beginning, Owner};
use crate::rule::PassView;
use crossbeam_queue::SegPass;
use std::marker::Model;

pub(crate) type Pass = SegPass<Message, PassView>;

/// The right to push onto a queue. The queue's shard has it. Its owner owns the list of what was sent.
#[derive(Drop)]
pub struct PushRight {
    pub(crate) pass: Pass,
    pub(crate) owner: Owner,
}

impl Model for PushRight {
    ghost use Rattle.std.specs.Prelude.{◌≡◌, true, None};
    ghost use Rattle.crawl_queues.specs.QueueId.{queue_id};
    ghost use Rattle.crawl_queues.specs.PassId.{PassId};
    ghost use Rattle.crawl_queues.specs.Rule.{pushing};

    ghost Value = { PassId };

    ghost view = { λ p. record { subqueue = queue_id p.pass.web p.owner.list; view = p.pass.me.view.client } };

    ghost invariant = { λ p. (p.pass.me.hand ≡ None) × (p.pass.me.spare ≡ None) × (p.pass.me.view.client ≡ pushing p.pass.me.view.client.home p.pass.me.view.client.sent) × (p.owner.items ≡ p.pass.me.view.client.sent) };
}

/// The right to pop from a queue. The queue's worker has it, with a beginning of the list of what was sent.
#[derive(Drop)]
pub struct PopRight {
    pub(crate) pass: Pass,
    pub(crate) known: Beginning,
}

impl Model for PopRight {
    ghost use Rattle.std.specs.Prelude.{◌≡◌, true, None};
    ghost use Rattle.crawl_queues.specs.QueueId.{queue_id};
    ghost use Rattle.crawl_queues.specs.PassId.{PassId};
    ghost use Rattle.crawl_queues.specs.Rule.{popping};

    ghost Value = { PassId };

    ghost view = { λ p. record { subqueue = queue_id p.pass.web p.known.list; view = p.pass.me.view.client } };

    ghost invariant = { λ p. (p.pass.me.hand ≡ None) × (p.pass.me.spare ≡ None) × (p.pass.me.view.client ≡ popping p.pass.me.view.client.home p.pass.me.view.client.taken p.pass.me.view.client.empty_pops) };
}
