//! Knowledge about a list that only grows: a beginning of it, seen by any thread at any time, stays a beginning.
ghost use Rattle.std.specs.Prelude.{◌≡◌, ◌++◌, ◌∷◌, [], IfOk};
ghost use Rattle.crawl_queues.specs.Growing.{Stays};
ghost use Rattle.crawl_queues.specs.Known.{owner_of, begins_with};

mod rule;

use crate::entry::Entry;
use crate::growing::rule::{Adds, Again, Compare, Grow, HandIn, Learn, ListView, OnlyGrows};
use atomic_table::{Seat, Table};
use std::alloc::{AllocError, Global};
use std::marker::{Brand, Model};
use std::mem;

/// Identifies one list, which is stored elsewhere. Threads share it by `&`, and nothing is ever written to it.
#[derive(Drop)]
pub struct Growing {
    table: Table<(), ListView, (), OnlyGrows, Global>,
}

impl Model for Growing {
    ghost use Rattle.std.specs.Prelude.{◌≡◌};
    ghost use Rattle.atomic_table.specs.Seated.{TableId};

    ghost Value = { TableId };

    ghost view = { λ g. g.table.shared.table_id };

    ghost invariant = { λ g. g.table.shared.table_id.words ≡ 1 };
}

/// The right to add to the list. Its owner knows the whole list. It has no bytes.
#[derive(Drop)]
pub struct Owner {
    seat: Seat<(), ListView>,
}

impl Model for Owner {
    ghost use Rattle.std.specs.Prelude.{◌≡◌, []};
    ghost use Rattle.crawl_queues.specs.Growing.{owning};
    ghost use Rattle.crawl_queues.specs.Known.{KnownList};

    ghost Value = { KnownList };

    ghost view = { λ o. record { list = o.seat.table_id; items = o.seat.me.0.all } };

    ghost invariant = { λ o. (o.seat.me.0 ≡ owning o.seat.me.0.all) × (o.seat.me.1 ≡ []) };
}

/// A beginning of the list: what the list was at some time, so each of its entries stays in the list. It has no bytes.
#[derive(Drop)]
pub struct Beginning {
    seat: Seat<(), ListView>,
}

impl Model for Beginning {
    ghost use Rattle.std.specs.Prelude.{◌≡◌, []};
    ghost use Rattle.crawl_queues.specs.Growing.{beginning};
    ghost use Rattle.crawl_queues.specs.Known.{KnownList};

    ghost Value = { KnownList };

    ghost view = { λ b. record { list = b.seat.table_id; items = b.seat.me.0.begins } };

    ghost invariant = { λ b. (b.seat.me.0 ≡ beginning b.seat.me.0.begins) × (b.seat.me.1 ≡ []) };
}

impl Growing {
    /// Makes an empty list, and the right to add to it.
    #[tactic(auto, using(crate::proofs::Moves::begins))]
    pub fn new(alloc: Global) -> Result<(Growing, Owner), AllocError>
        ensures { IfOk result (λ r. r.1 ≡ owner_of r.0 []) }
    {
        let (table, seat) = Table::of_words(alloc, &[0], &())?;
        Ok((Growing { table }, Owner { seat }))
    }

    /// Adds the entry to the list in contracts. When it runs, it changes nothing in memory.
    fn add<B: Adds>(&self, owner: &mut Owner, entry: &Entry)
        requires entry { B.entry ≡ entry.now }
        requires list { owner.old.list ≡ self.now }
        ensures { owner.new ≡ owner_of self.now (owner.old.items ++ entry.now ∷ []) }
    {
        self.table.shared.load::<Grow<B>>(&mut owner.seat, 0);
    }

    /// Adds one entry to the list.
    pub fn grow(&self, owner: &mut Owner, entry: &Entry)
        requires { owner.old.list ≡ self.now }
        ensures { owner.new ≡ owner_of self.now (owner.old.items ++ entry.now ∷ []) }
    {
        self.add::<Brand>(owner, entry);
    }

    /// Returns a beginning of the list: all of it, as it is now.
    #[tactic(auto, using(crate::proofs::Moves::learns))]
    pub fn new_beginning(&self, owner: &mut Owner) -> Beginning
        requires { owner.old.list ≡ self.now }
        ensures same { owner.new ≡ owner.old }
        ensures learned { result ≡ begins_with self.now owner.old.items }
    {
        let seat = self.table.shared.split_seat::<Learn>(&mut owner.seat);
        Beginning { seat }
    }

    /// Returns one more beginning, equal to this one.
    #[tactic(auto, using(crate::proofs::Moves::repeats))]
    pub fn again(&self, known: &mut Beginning) -> Beginning
        requires { known.old.list ≡ self.now }
        ensures same { known.new ≡ known.old }
        ensures again { result ≡ known.old }
    {
        let seat = self.table.shared.split_seat::<Again>(&mut known.seat);
        Beginning { seat }
    }

    // Learns that the entries of the beginning are still in the list.
    fn compare(&self, owner: &mut Owner, known: Beginning)
        requires owner { owner.old.list ≡ self.now }
        requires known { known.list ≡ self.now }
        ensures same { owner.new ≡ owner.old }
        ensures stays { Stays known.items owner.old.items }
    {
        let Beginning { seat } = known;
        self.table.shared.join_seat::<HandIn>(&mut owner.seat, seat);
        self.table.shared.load::<Compare>(&mut owner.seat, 0);
    }

    /// Extends the beginning to what the list is now, which still has all its entries.
    pub fn catch_up(&self, owner: &mut Owner, known: &mut Beginning)
        requires owner { owner.old.list ≡ self.now }
        requires known { known.old.list ≡ self.now }
        ensures same { owner.new ≡ owner.old }
        ensures learned { known.new ≡ begins_with self.now owner.old.items }
        ensures stays { Stays known.old.items known.new.items }
    {
        let now = self.new_beginning(owner);
        let before = mem::replace(known, now);
        self.compare(owner, before);
    }
}
