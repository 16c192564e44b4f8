//! Laws that follow only from the definitions, for every history of a frontier's atomic steps. A law is a function that does
//! nothing; its clauses are the theorem.
ghost use Rattle.std.specs.Prelude.{◌≡◌, ◌≢◌, ℕ, List, [], ◌∷◌, ◌++◌, true, false};
ghost use Rattle.std.specs.List.{list_all};
ghost use Rattle.crawl_core.specs.declared.event.Event.{Event};
ghost use Rattle.crawl_core.specs.declared.reply.Reply.{Reply};
ghost use Rattle.crawl_core.specs.Subqueue.{Subqueue};
ghost use Rattle.crawl_core.specs.State.{State, start, count_of};
ghost use Rattle.crawl_core.specs.Run.{Run};
ghost use Rattle.crawl_core.specs.Invariants as machine;
ghost use Rattle.crawl_gate.specs.GateInvariant as gates;
ghost use Rattle.crawl_gate.specs.GateInvariant.{GateInvariant};
ghost use Rattle.crawl_gate.specs.GateError.{IsMaximum};
ghost use Rattle.crawl_gate.specs.History.{GateStep};
ghost use Rattle.crawl_gate.specs.Seat.{GateId};
ghost use Rattle.crawl_queues.specs.declared.entry.Entry.{Entry};
ghost use Rattle.crawl_queues.specs.declared.entry.Message.{Message};
ghost use Rattle.crawl_queues.specs.declared.rule.Home.{Home};
ghost use Rattle.crawl_queues.specs.Rule.{SubqueueInvariant, home};
ghost use Rattle.crawl_queues.specs.History as subqueues;
ghost use Rattle.crawl_queues.specs.History.{SubqueueStep};
ghost use Rattle.crawl_tie.specs.Whole.{Whole, Owner, IsFirst, made};
ghost use Rattle.crawl_tie.specs.Acts.{Act, Atomic, History, Leaving, IsOwner, IsUnitOf};
ghost use Rattle.crawl_tie.specs.Shows.{events, events_of, ShowsWhole, ShowsGate, ShowsLists, IsPlaced, CountsUnits, ListsKeep};
ghost use Rattle.crawl_tie.specs.Headline.{Delivers, Finished, is_closing, is_quiet};
ghost use Rattle.crawl_tie.specs.Sample.{offers_made, turns_made};
ghost use Rattle.crawl_tie.specs.Parts.{GateMoves, LaneMoves, IsDivided, IsUnited, IsMaking, UnitsAreOwned};

/// For every history of atomic steps, the machine has a run whose events are those of the steps.
pub fn histories_are_runs()
    ensures { (gate : GateId) (workers : ℕ) (first last : Whole) (acts : List Act) → IsMaximum gate.max_pending → IsFirst gate workers first → History first acts last
        → (state : State) × Run (start workers gate.max_pending) (events acts) state × ShowsWhole gate workers state last }
{}

/// For every interleaving of the frontier's atomic steps: an accepted URL is delivered at most once, only by the worker of its
/// host's subqueue, and the URLs of one sender to one subqueue in the order in which they were sent. The gate is closed, or found
/// closed, only when every accepted URL has been delivered and its fetch is done. After that nothing enters, and no URL is accepted
/// or delivered.
pub fn every_interleaving()
    ensures delivers { (gate : GateId) (workers : ℕ) (first last : Whole) (acts : List Act) → IsMaximum gate.max_pending → IsFirst gate workers first → History first acts last
        → Delivers workers acts }
    ensures closed { (gate : GateId) (workers : ℕ) (first mid last : Whole) (before later : List Act) (act : Act) → IsMaximum gate.max_pending → IsFirst gate workers first
        → History first (before ++ act ∷ []) mid → is_closing act ≡ true → History mid later last
        → Finished workers before mid × (list_all is_quiet later ≡ true) }
{}

/// Each row of the table: from a state of a run that represents the moment before an atomic step, the step's events have the
/// replies of the row, and lead to exactly one state, which represents the moment after it.
pub fn rows_of_the_table()
    ensures { (gate : GateId) (workers : ℕ) (history : List (Event × Reply)) (state : State) (w v : Whole) (act : Act) → IsMaximum gate.max_pending → w.max ≡ gate.max_pending
        → GateInvariant gate.max_pending w.gate → UnitsAreOwned w → Run (start workers gate.max_pending) history state → ShowsWhole gate workers state w → Atomic w act v
        → (next : State) × Run state (events_of act) next × ShowsWhole gate workers next v × ((other : State) → Run state (events_of act) other → other ≡ next) }
{}

/// If the machine's invariants are true of a state, those of the gate and of the subqueues are true of what it represents.
pub fn invariants_shown()
    ensures gate { (state : State) (gate : gates.Moment) → machine.GateInvariant state.gate (count_of state) → ShowsGate state gate → CountsUnits state.gate.max gate }
    ensures subqueues { (workers q : ℕ) (queue : Subqueue) (sent taken : List Entry) (waits : List Message) → machine.SubqueueInvariant queue → IsPlaced workers q queue → ShowsLists queue sent taken waits
        → ListsKeep workers q sent taken waits }
{}

/// At each moment of a history, the gate keeps its invariant, and each unit has an owner. So each step that gives a unit back is
/// one of its owner, and the unit of a pushed URL is held.
pub fn units_are_owned()
    ensures always { (gate : GateId) (workers : ℕ) (first last : Whole) (acts : List Act) → IsMaximum gate.max_pending → IsFirst gate workers first → History first acts last
        → GateInvariant gate.max_pending last.gate × UnitsAreOwned last }
    ensures whose { (w : Whole) (gate : gates.Moment) (n : ℕ) → UnitsAreOwned w → (step : Leaving w.gate gate n) → (owner : Owner) × IsOwner w step.steps.seat owner }
    ensures pushed { (w : Whole) (m : Message) (s : ℕ) → UnitsAreOwned w → IsUnitOf w s m → m.unit.view.holds_unit ≡ true }
{}

/// No step is left out: each step of a gate is one of the atomic steps. So is each step of a subqueue after the two steps that make
/// it, until its two passes become one; after that only two kinds of step are possible.
pub fn no_step_left_out()
    ensures gate { (gate next : gates.Moment) → GateStep gate next → GateMoves gate next }
    ensures made { (h : Home) → (settled : subqueues.Moment) × SubqueueStep subqueues.first_moment settled × SubqueueStep settled (made h) }
    ensures divided { (gate : GateId) (workers q : ℕ) → IsDivided (made (home gate workers q)) }
    ensures subqueues { (m next : subqueues.Moment) → SubqueueInvariant m.items m.views → IsDivided m → SubqueueStep m next → LaneMoves m next }
    ensures united { (m next : subqueues.Moment) → IsUnited m → (step : SubqueueStep m next) → IsMaking step ≡ true }
{}

/// The laws are not empty: there is a history of twenty-seven steps, of two workers and two senders that offer the same URL. One
/// sender loses a try, and then finds the URL there; one worker fetches it; the gate is closed, and found closed.
#[tactic(auto, using(crate::proofs::Samples::sample))]
pub fn there_are_histories()
    ensures { (gate : GateId) → gate.max_pending ≡ 4 → (q : ℕ) × (other : ℕ) × (e : Entry) × (first : Whole) × (mid : Whole) × (last : Whole)
        × (q ≢ other) × IsFirst gate 2 first × History first (offers_made q e) mid × History mid (turns_made q other e) last }
{}
