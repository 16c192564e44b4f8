//! Receivers of the links and the ids of a document.
ghost use Rattle.std.specs.Prelude.{◌≡◌, ◌≤◌, ◌∷◌, ◌++◌, [], OnOk, ℕ, List, length};

use std::alloc::AllocError;

/// A receiver of links, one after another.
pub trait Links {
    // The texts so far.
    ghost texts: { Self → List (List ℕ) };

    // The positions so far.
    ghost positions: { Self → List ℕ };

    /// Receives the text of the next link, with its character references decoded, and the position at which its value begins.
    ///
    /// # Errors
    /// If an allocation fails.
    fn push(&mut self, position: usize, text: &[u8]) -> Result<(), AllocError>
        ensures texts { OnOk result (texts self.new ≡ texts self.old ++ text.now ∷ []) }
        ensures positions { OnOk result (positions self.new ≡ positions self.old ++ position ∷ []) };
}

/// A receiver of links that counts them, so that a document is read only until there are enough.
pub trait CountedLinks: Links {
    /// Returns the number of links so far. A lower number only makes the reader read more.
    fn count(&self) -> usize
        ensures texts { result ≤ length (Self.texts self.now) }
        ensures positions { result ≤ length (Self.positions self.now) };
}

/// A receiver of ids, one after another.
pub trait DocumentIds {
    // The texts so far.
    ghost texts: { Self → List (List ℕ) };

    /// Receives the next id, with its character references decoded.
    ///
    /// # Errors
    /// If an allocation fails.
    fn push(&mut self, text: &[u8]) -> Result<(), AllocError>
        ensures { OnOk result (texts self.new ≡ texts self.old ++ text.now ∷ []) };
}
