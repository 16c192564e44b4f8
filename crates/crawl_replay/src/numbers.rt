//! Numbers as they are written in scripts: only decimal digits, with or without leading zeros.
ghost use Rattle.std.specs.Prelude.{◌≡◌};
ghost use Rattle.std.specs.List.{list_all};
ghost use Rattle.std.specs.Char.{is_ascii_digit};
ghost use Rattle.crawl_replay.specs.Numbers.{is_number, number_of};

/// The greatest number of digits: that of the greatest `u64`.
pub const DIGIT_LIMIT: usize = 20;

/// Returns the number in the text, or `None` if it is not a number that fits 32 bits.
#[tactic(auto, using(crate::proofs::NumberText::parsed))]
pub fn number32(text: &str) -> Option<u32>
    ensures { result ≡ number_of 32 text.now }
{
    if is_number(text) {
        text.parse::<u32>().ok()
    } else {
        None
    }
}

/// Returns the number in the text, or `None` if it is not a number that fits 64 bits.
#[tactic(auto, using(crate::proofs::NumberText::parsed))]
pub fn number64(text: &str) -> Option<u64>
    ensures { result ≡ number_of 64 text.now }
{
    if is_number(text) {
        text.parse::<u64>().ok()
    } else {
        None
    }
}

/// Whether the text has one to `DIGIT_LIMIT` bytes, and all are ASCII digits.
fn is_number(text: &str) -> bool
    ensures { result ≡ is_number text.now }
{
    !text.is_empty() && text.len() <= DIGIT_LIMIT && has_only_digits(text)
}

/// Whether each byte is an ASCII digit. This is true of an empty text.
fn has_only_digits(text: &str) -> bool
    ensures { result ≡ list_all is_ascii_digit text.now }
{
    text.bytes().all(|b| b.is_ascii_digit())
}
