//! A text that is stored inside its owner if it is short.
ghost use Rattle.std.specs.Prelude.{◌≡◌, ◌++◌, [], IfOk, OnOk, string_bytes};

use arrayvec::ArrayString;
use std::alloc::{AllocError, Global};
use std::marker::Model;

/// The longest text that is stored inside its owner, in bytes.
///
/// URLs are mostly 40 to 80 bytes long. With 64 here, the block that the copies of a URL share has 104 bytes, for which an
/// allocator takes 112: it allocates in steps of 16 and needs 8 for itself. With 80, fewer texts would need a second block,
/// but each URL would take 128 bytes, and what is read of it would be in more cache lines.
const SHORT: usize = 64;

/// A text of any length.
#[derive(Drop)]
pub(super) struct Text {
    kept: Kept,
}

#[derive(Drop)]
enum Kept {
    Short(ArrayString<SHORT>),
    Long(String),
}

// In contracts, a text is its bytes.
impl Model for Text {
    ghost use Rattle.std.specs.Prelude.{ℕ, List};
    ghost use Rattle.crawl_keys.specs.Texts.{bytes_of};

    ghost Value = { List ℕ };

    ghost view = { λ text. bytes_of text.kept };
}

impl Text {
    /// The empty text.
    #[inline(always)]
    pub(super) fn new() -> Text
        ensures { result ≡ [] }
    {
        Text {
            kept: Kept::Short(ArrayString::new()),
        }
    }

    /// Writes `front` and `back` into an empty text. Only a long text allocates memory.
    #[inline(always)]
    pub(super) fn write(&mut self, alloc: Global, front: &str, back: &str) -> Result<(), AllocError>
        requires { self.old ≡ [] }
        ensures { OnOk result (self.new ≡ front.now ++ back.now) }
    {
        if let Kept::Short(short) = &mut self.kept {
            if short.try_push_str(front).is_ok() && short.try_push_str(back).is_ok() {
                return Ok(());
            }
        }
        self.kept = Kept::Long(joined(alloc, front, back)?);
        Ok(())
    }

    /// The text.
    #[inline]
    pub(super) fn as_str(&self) -> &str
        ensures { result.now ≡ self.now }
    {
        match &self.kept {
            Kept::Short(text) => text.as_str(),
            Kept::Long(text) => text.as_str(),
        }
    }
}

/// `front` followed by `back`, with one allocation.
pub(crate) fn joined(alloc: Global, front: &str, back: &str) -> Result<String, AllocError>
    ensures { IfOk result (λ text. string_bytes text ≡ front.now ++ back.now) }
{
    let mut text = String::with_capacity(alloc, front.len() + back.len())?;
    text.push_str(front)?;
    text.push_str(back)?;
    Ok(text)
}
