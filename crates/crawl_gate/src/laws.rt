//! Laws: what is true of every history of a gate's steps, whichever threads make them. A law is a function that does nothing; its
//! clauses are the theorem.
ghost use Rattle.std.specs.Prelude.{◌≡◌, ℕ, List, [], ◌∷◌, All};
ghost use Rattle.crawl_gate.specs.Word.{Word, bits, closed_at};
ghost use Rattle.crawl_gate.specs.GateInvariant.{Moment, GateInvariant};
ghost use Rattle.crawl_gate.specs.GateError.{IsMaximum};
ghost use Rattle.crawl_gate.specs.History.{GateStep, GateGoes, IsHistory, first_moment};
ghost use Rattle.crawl_gate.specs.TableStep.{TableStep};

/// The gate's invariant is true when a gate is made, and at every later moment of a history. It is also true after any other moment
/// at which it is true.
#[tactic(auto, using(crate::proofs::Histories::first_kept, crate::proofs::Histories::later_kept))]
pub fn invariant_in_histories()
    ensures first { (max : ℕ) → IsMaximum max → GateInvariant max (first_moment max) }
    ensures later { (max : ℕ) (gate : Moment) (moments : List Moment) → GateInvariant max gate → IsHistory gate moments
        → All (GateInvariant max) moments }
{}

/// After one step from a moment that keeps the invariant, the next moment keeps it too. The step's kind decides how the
/// word changes. The kind and the word that the step met are added to the view of the seat that made it.
pub fn one_step()
    ensures keeps { (max : ℕ) (gate next : Moment) → GateInvariant max gate → GateStep gate next → GateInvariant max next }
    ensures goes { (max : ℕ) (gate next : Moment) → GateInvariant max gate → (step : GateStep gate next) → (x : Word) × (y : Word) × GateGoes gate next step x y }
{}

/// From a moment that keeps the invariant, the steps of a history are exactly those that the gate's table allows its
/// plays and its split to make, whichever number they write.
pub fn steps_are_those_of_the_table()
    ensures every { (max : ℕ) (gate next : Moment) → GateInvariant max gate → GateInvariant max next → TableStep gate next → GateStep gate next }
    ensures no_other { (max : ℕ) (gate next : Moment) → GateInvariant max gate → GateStep gate next → TableStep gate next × GateInvariant max next }
{}

/// After a gate is closed, no step changes its word. So its count stays 0, and nothing enters.
#[tactic(auto, using(crate::proofs::Histories::shut_for_good))]
pub fn closed_for_good()
    ensures { (gate : Moment) (moments : List Moment) → gate.words ≡ bits (closed_at 0) ∷ [] → IsHistory gate moments
        → All (λ later. later.words ≡ bits (closed_at 0) ∷ []) moments }
{}
