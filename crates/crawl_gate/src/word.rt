//! The word, a `u64`, that a gate's threads share: bit 63 is the closed bit, and the bits below it count units.
ghost use Rattle.std.specs.Prelude.{◌≡◌, ◌<◌};
ghost use Rattle.crawl_gate.specs.Word.{top_bit, bits};

/// The word of a closed gate, whose count is 0.
pub(crate) const CLOSED: u64 = 1 << 63;

/// The count and the closed bit of a gate, as one load found them.
#[derive(Clone, Copy, Debug, PartialEq, Eq)]
pub struct GateState {
    /// The number of units that are held. Units that were dropped are counted too.
    pub count: u64,
    /// Whether the gate is closed. If so, it stays closed, with count 0.
    pub closed: bool,
}

// The state that a word encodes.
pub(crate) fn state_of(word: u64) -> GateState
    ensures shown { bits (result.count, result.closed) ≡ word }
    ensures small { result.count < top_bit }
{
    if word >= CLOSED {
        GateState {
            count: word - CLOSED,
            closed: true,
        }
    } else {
        GateState {
            count: word,
            closed: false,
        }
    }
}
