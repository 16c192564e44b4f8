//! Values that can be found by a text.
ghost use Rattle.std.specs.Prelude.{◌≡◌, ℕ, List};

/// A value that is found by its text. The hash of the text is stored with it, or computed at each call.
///
/// Equal texts have the same hash. Different texts may have the same hash too: no result depends on it.
pub trait Keyed {
    // The bytes of the value's text.
    ghost text: { Self → List ℕ };

    // The hash of a text.
    ghost hash: { List ℕ → ℕ };

    /// Returns the text by which the value is found.
    fn text(&self) -> &str
        ensures { result.now ≡ text self.now };

    /// Returns the hash of that text.
    fn text_hash(&self) -> u64
        ensures { result ≡ hash (text self.now) };
}

impl<T: Keyed> Keyed for &T {
    ghost text = { λ item. T.text item.now };

    ghost hash = { T.hash };

    fn text(&self) -> &str {
        (*self).text()
    }

    fn text_hash(&self) -> u64 {
        (*self).text_hash()
    }
}
