//! Texts of URLs, which are shared by their copies.
ghost use Rattle.std.specs.Prelude.{◌≡◌, Some, IfOk, bytes_eq};
ghost use Rattle.std.specs.Cmp.{partial_equiv_from_equiv};
ghost use Rattle.std.specs.Cmp.Lexicographic.{nat_list_eq_equiv};

use crate::error::NoMemory;
use hash_index::Keyed;
use hash_order::hash_of;
use std::alloc::Global;
use std::fmt;
use std::marker::Model;
use std::sync::ArcStr;

/// A URL in the machine: any text, which contracts see as its bytes.
///
/// Texts are equal and print as their bytes, which are kept once and shared by all copies, in any threads. So a copy takes no
/// memory, and fails only if the count of copies is at its limit.
#[derive(Drop)]
pub struct Text {
    hash: u64,
    text: ArcStr,
}

impl Model for Text {
    ghost use Rattle.std.specs.Prelude.{◌≡◌, List, ℕ};
    ghost use Rattle.std.specs.Arc.{arc_str_bytes};
    ghost use Rattle.hash_order.specs.HashOrder.{hash_of};

    ghost Value = { List ℕ };

    ghost view = { λ t. arc_str_bytes t.text };

    ghost invariant = { λ t. t.hash ≡ hash_of (arc_str_bytes t.text) };
}

impl Text {
    /// Copies a text to memory of its own.
    pub fn from_str(alloc: Global, text: &str) -> Result<Text, NoMemory>
        ensures { IfOk result (λ copy. copy ≡ text.now) }
    {
        Ok(Text {
            hash: hash_of(text),
            text: ArcStr::from_str(alloc, text)?,
        })
    }

    /// Returns the text.
    pub fn as_str(&self) -> &str
        ensures { result.now ≡ self.now }
    {
        self.text.as_str()
    }
}

impl Keyed for Text {
    ghost use Rattle.hash_order.specs.HashOrder.{hash_of};

    ghost text = { λ text. text };

    ghost hash = { hash_of };

    fn text(&self) -> &str {
        self.as_str()
    }

    fn text_hash(&self) -> u64 {
        self.hash
    }
}

impl Clone for Text {
    ghost is_clone = { λ text copy. copy ≡ text };

    fn clone(&self) -> Result<Text, NoMemory> {
        Ok(Text {
            hash: self.hash,
            text: self.text.clone()?,
        })
    }
}

impl fmt::Display for Text {
    ghost output = { λ text. Some text };

    fn fmt<W: fmt::Write>(&self, f: &mut fmt::Formatter<W>) -> fmt::Result {
        f.write_str(self.as_str())
    }
}

impl fmt::Debug for Text {
    fn fmt<W: fmt::Write>(&self, f: &mut fmt::Formatter<W>) -> fmt::Result {
        fmt::Debug::fmt(&self.as_str(), f)
    }
}

impl PartialEq for Text {
    ghost eq = { bytes_eq };

    ghost laws = { partial_equiv_from_equiv nat_list_eq_equiv };

    fn eq(&self, other: &Text) -> bool {
        self.as_str() == other.as_str()
    }
}

impl Eq for Text {
    ghost laws = { nat_list_eq_equiv };
}
