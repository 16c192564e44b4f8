//! Laws: what is true of every history of a queue's steps, whichever threads make them. A law is a function that does nothing; its
//! clauses are the theorem.
ghost use Rattle.std.specs.Prelude.{ℕ, List, [], ◌∷◌};
ghost use Rattle.crawl_queues.specs.declared.entry.Entry.{Entry};
ghost use Rattle.crawl_queues.specs.Entries.{KeepsRule};
ghost use Rattle.crawl_queues.specs.History.{IsAcceptedList, Moment, SubqueueStep, ListsMove, IsHistory, first_moment, AllKept};
ghost use Rattle.crawl_queues.specs.Rule.{SubqueueInvariant};

/// In a list that keeps the rule of a queue, all URLs differ, each belongs to the queue, and each sender's entries are numbered 0,
/// 1, 2, .. in order. Each list of an account keeps this rule.
#[tactic(auto, using(crate::proofs::Histories::accepted_lists))]
pub fn accepted_lists()
    ensures { (workers q : ℕ) (es : List Entry) → KeepsRule workers q [] es → IsAcceptedList workers q es }
{}

/// Each kind of step of a queue keeps its invariant: a push adds one entry to the list of what was sent, a pop adds one to
/// the list of what was taken, and no other kind changes these lists.
#[tactic(auto, using(crate::proofs::Histories::step_moves))]
pub fn steps_of_a_subqueue()
    ensures { (m m' : Moment) (k : SubqueueInvariant m.items m.views) (step : SubqueueStep m m')
        → (k' : SubqueueInvariant m'.items m'.views) × ListsMove step k.sent k.taken k'.sent k'.taken }
{}

/// A queue keeps its invariant when it is made, and at every later moment of a history from there.
#[tactic(auto, using(crate::proofs::Histories::invariant_in_histories))]
pub fn invariant_in_histories()
    ensures { (later : List Moment) → IsHistory first_moment later → AllKept (first_moment ∷ later) }
{}
