//! Laws of whole runs: what is true of any events and the replies that [`run`](crate::run) returns for them. Calling a law does
//! nothing.
ghost use Rattle.std.specs.Prelude.{◌≡◌, ℕ, List, ◌++◌, ◌∷◌, [], length, map, slice_get, Some, zip, Contains};
ghost use Rattle.crawl_core.specs.Messages.{Message};
ghost use Rattle.crawl_core.specs.Subqueue.{Subqueue};
ghost use Rattle.crawl_core.specs.State.{State, start, count_of};
ghost use Rattle.crawl_core.specs.Run.{Run, IsRun};
ghost use Rattle.crawl_core.specs.History.{TakesInOrder, AcceptsOnce, LeavesInOrder, FetchesOneAtATime, AssignsEachUrl, IsAdmitted, NamesItsSubqueue, TakesOnce, TakesAsAdmitted, ReportsUnits, ReportsClosing, StaysClosed, accepted_urls, taken_urls, done_in};
ghost use Rattle.crawl_core.specs.Invariants.{HasRoom, GateInvariant, SubqueueInvariant, EachSubqueue, IsState, IsFinished};
ghost use Rattle.crawl_core.specs.declared.event.Event.{Event};
ghost use Rattle.crawl_core.specs.declared.reply.Reply.{Reply};
ghost use Rattle.crawl_core.specs.declared.reply.Reply.TheVariants as says;

/// Events have exactly one list of replies: there is one, and any two are equal.
pub fn one_run()
    ensures some { (workers max : ℕ) (events : List Event) → (replies : List Reply) × IsRun workers max events replies }
    ensures one { (workers max : ℕ) (events : List Event) (replies others : List Reply) → IsRun workers max events replies → IsRun workers max events others → replies ≡ others }
{}

/// First in, first out, once: the k-th URL that is taken from a subqueue is the k-th that it accepted, no subqueue accepts a URL
/// twice, the messages of a sender leave with the numbers 0, 1, 2, .. in this order, and one URL is fetched at a time.
pub fn taken_once_in_order()
    ensures in_order { (workers max : ℕ) (events : List Event) (replies : List Reply) → IsRun workers max events replies → TakesInOrder (zip events replies) }
    ensures once { (workers max : ℕ) (events : List Event) (replies : List Reply) → IsRun workers max events replies → AcceptsOnce (zip events replies) }
    ensures numbered { (workers max : ℕ) (events : List Event) (replies : List Reply) → IsRun workers max events replies → LeavesInOrder (zip events replies) }
    ensures one_at_a_time { (workers max : ℕ) (events : List Event) (replies : List Reply) → IsRun workers max events replies → FetchesOneAtATime (zip events replies) }

    // If all admissions of a URL name one subqueue, it is taken at most once, and only from that subqueue.
    ensures taken_once { (workers max : ℕ) (events : List Event) (replies : List Reply) → IsRun workers max events replies → AssignsEachUrl events → TakesOnce (zip events replies) }
    ensures where_admitted { (workers max : ℕ) (events : List Event) (replies : List Reply) → IsRun workers max events replies → AssignsEachUrl events → TakesAsAdmitted events (zip events replies) }
{}

/// Nothing is invented: the reply `Accepted` names the subqueue of its event, and each URL that a subqueue accepted or that was
/// taken from it was admitted to it by one of the events.
pub fn admitted_before()
    ensures named { (workers max : ℕ) (events : List Event) (replies : List Reply) → IsRun workers max events replies → NamesItsSubqueue (zip events replies) }
    ensures accepted { (workers max : ℕ) (history : List (Event × Reply)) (state : State) → Run (start workers max) history state → (queue k : ℕ) (found : Subqueue) (m : Message) → slice_get state.subqueues queue ≡ Some found → slice_get found.accepted k ≡ Some m → IsAdmitted (map (λ x. x.0) history) queue m.url }
    ensures taken { (workers max : ℕ) (events : List Event) (replies : List Reply) → IsRun workers max events replies → (place queue : ℕ) (url : List ℕ) → slice_get (zip events replies) place ≡ Some (Event.Take queue, says.Taken url) → IsAdmitted events queue url }
{}

/// Seen means accepted: a URL with the reply `Seen` was accepted by its subqueue before.
pub fn seen_means_accepted()
    ensures { (workers max : ℕ) (front back : List (Event × Reply)) (sender queue : ℕ) (url : List ℕ) (end : State) → Run (start workers max) (front ++ (Event.Admit sender url queue, says.Seen) ∷ back) end → Contains (accepted_urls queue front) url }
{}

/// Empty means taken: at a reply `Empty`, every URL that the subqueue accepted was taken.
pub fn empty_means_taken()
    ensures { (workers max : ℕ) (front back : List (Event × Reply)) (queue : ℕ) (end : State) → Run (start workers max) (front ++ (Event.Take queue, says.Empty) ∷ back) end → taken_urls queue front ≡ accepted_urls queue front }
{}

/// Closed means done: at a reply `Closed`, the seeds have ended, no sender holds a unit, and every accepted message was taken and
/// is done. So the URLs taken from each subqueue are exactly those that it accepted, in order, and each of these fetches ended with
/// a `Done`.
pub fn closed_means_finished()
    ensures drained { (workers max : ℕ) (front back : List (Event × Reply)) (event : Event) (end : State) → Run (start workers max) (front ++ (event, says.Closed) ∷ back) end → (queue : ℕ) → taken_urls queue front ≡ accepted_urls queue front }
    ensures done { (workers max : ℕ) (front back : List (Event × Reply)) (event : Event) (end : State) → Run (start workers max) (front ++ (event, says.Closed) ∷ back) end → (queue : ℕ) → done_in queue front ≡ length (taken_urls queue front) }
    ensures finished { (workers max : ℕ) (front back : List (Event × Reply)) (event : Event) (end : State) → Run (start workers max) (front ++ (event, says.Closed) ∷ back) end → (state : State) × Run (start workers max) (front ++ (event, says.Closed) ∷ []) state × IsFinished state }
{}

/// Closed for good: after a reply `Closed` no reply is `Entered`, `Accepted`, `Taken` or `Count`.
pub fn closed_for_good()
    ensures { (workers max : ℕ) (events : List Event) (replies : List Reply) → IsRun workers max events replies → StaysClosed (zip events replies) }
{}

/// Every state of a run satisfies the gate's invariant and, for each subqueue, that of subqueues. It has the run's limits, and is
/// determined by its history. So are the counts in the replies, and whether a look finds the gate closed.
pub fn invariants_in_runs()
    ensures gate { (workers max : ℕ) (history : List (Event × Reply)) (state : State) → HasRoom max → Run (start workers max) history state → GateInvariant state.gate (count_of state) }
    ensures subqueues { (workers max : ℕ) (history : List (Event × Reply)) (state : State) → Run (start workers max) history state → EachSubqueue SubqueueInvariant state }
    ensures history { (workers max : ℕ) (history : List (Event × Reply)) (state : State) → Run (start workers max) history state → IsState workers max history state }
    ensures reported { (workers max : ℕ) (events : List Event) (replies : List Reply) → IsRun workers max events replies → ReportsUnits (zip events replies) }
    ensures reported_closing { (workers max : ℕ) (events : List Event) (replies : List Reply) → IsRun workers max events replies → ReportsClosing (zip events replies) }
{}
