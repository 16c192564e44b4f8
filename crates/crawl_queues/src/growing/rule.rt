//! The rule of a list that only grows, and the moves of its seats.
use crate::entry::Entry;
use atomic_table::{Join, Play, Split, TableRule};
use std::collections::LinkedList;
use std::marker::{Brand, PhantomData};

/// What a seat knows of a list: all of it, if it is the seat that may add to it; and a beginning. It is only for clauses: no
/// value of it is made.
pub struct ListView {
    pub owns: bool,
    pub all: LinkedList<Entry>,
    pub begins: LinkedList<Entry>,
}

pub(crate) struct OnlyGrows;

impl TableRule<(), ListView, ()> for OnlyGrows {
    ghost use Rattle.std.specs.Prelude.{[]};
    ghost use Rattle.crawl_queues.specs.Growing.{Grows, owning};

    ghost holds = { λ _ table. Grows table };

    ghost first = { λ _. owning [] };
}

/// The entry that a step adds, which the call chooses.
pub trait Adds {
    ghost use Rattle.crawl_queues.specs.declared.entry.Entry.{Entry};

    ghost entry: { Entry };
}

impl Adds for Brand {
    ghost use Rattle.crawl_queues.specs.Growing.{no_entry};

    ghost entry = { no_entry };
}

// Adds an entry to the owner's list.
pub(crate) struct Grow<B: Adds> {
    of: PhantomData<B>,
}

impl<B: Adds> Play<(), ListView> for Grow<B> {
    ghost use Rattle.crawl_queues.specs.Growing.{Adding};

    ghost then = { λ step before found after. Adding B.entry before after };
}

// The owner compares the beginning that it was given with the whole list, and gives it up.
pub(crate) struct Compare;

impl Play<(), ListView> for Compare {
    ghost use Rattle.crawl_queues.specs.Growing.{Compares};

    ghost then = { λ step before found after. Compares before after };
}

// A new seat learns the owner's list.
pub(crate) struct Learn;

impl Split<ListView> for Learn {
    ghost use Rattle.crawl_queues.specs.Growing.{beginning};

    ghost left = { λ v. v };

    ghost right = { λ v. beginning v.all };
}

// A new seat learns the beginning that another seat knows.
pub(crate) struct Again;

impl Split<ListView> for Again {
    ghost use Rattle.crawl_queues.specs.Growing.{beginning};

    ghost left = { λ v. v };

    ghost right = { λ v. beginning v.begins };
}

// The owner is given a beginning.
pub(crate) struct HandIn;

impl Join<ListView> for HandIn {
    ghost use Rattle.std.specs.Prelude.{[]};
    ghost use Rattle.crawl_queues.specs.Growing.{holding, beginning};

    ghost both = { λ v u. holding v.all u.begins };

    ghost spent = { beginning [] };
}
