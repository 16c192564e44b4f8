//! The kinds of step that a seat makes on its gate's word.

/// The kind of a step. It is only for clauses: no value of it is made.
pub enum StepKind {
    /// A load.
    Load,
    /// A compare-and-exchange that took a unit.
    EnterWon,
    /// A compare-and-exchange for a unit that found another word than expected.
    EnterLost,
    /// A subtraction of one unit.
    Leave,
    /// A compare-and-exchange of the open word with count 0 for the closed word, which closed the gate.
    CloseWon,
    /// A compare-and-exchange for the closed word that found another word than expected.
    CloseLost,
}
