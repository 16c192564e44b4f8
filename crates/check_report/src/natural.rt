//! Compares texts in natural order: `page-2` is before `page-10`.
ghost use Rattle.std.specs.Prelude.{◌≡◌, ◌<◌, drop, length, take_while, true};
ghost use Rattle.std.specs.Cmp.Lexicographic.{slice_cmp};
ghost use Rattle.std.specs.List.{list_all, prefix_len};
ghost use Rattle.std.specs.Ordering.{nat_cmp, ordering_then};
ghost use Rattle.check_report.specs.Natural.{after_run, is_digit, is_zero, natural_cmp, number_from, runs_of};

use std::cmp::Ordering;

/// Compares two texts by their runs: a run of digits is a number, and any other byte is itself. Texts with the same runs are
/// compared by their bytes.
pub fn natural_cmp(a: &str, b: &str) -> Ordering
    ensures { result ≡ natural_cmp a.now b.now }
{
    run_cmp(a.as_bytes(), b.as_bytes()).then(a.cmp(b))
}

/// Compares two texts by their runs.
#[tactic(auto, using(crate::proofs::Runs::left_end, crate::proofs::Runs::right_end, crate::proofs::Runs::run_shorter))]
fn run_cmp(a: &[u8], b: &[u8]) -> Ordering
    ensures { result ≡ slice_cmp nat_cmp (runs_of a.now) (runs_of b.now) }
{
    let mut left = a;
    let mut right = b;
    'runs: while !left.is_empty() && !right.is_empty() {
        let order = first_cmp(left, right);
        if order != Ordering::Equal {
            return order;
        }
        left = after_run(left);
        right = after_run(right);
    }
    left.len().cmp(&right.len())
}

/// Compares the first runs of two texts.
#[tactic(auto, using(crate::proofs::Runs::are_digits, crate::proofs::Runs::left_byte, crate::proofs::Runs::right_byte))]
fn first_cmp(left: &[u8], right: &[u8]) -> Ordering
    requires left { 0 < length left.now }
    requires right { 0 < length right.now }
    ensures { slice_cmp nat_cmp (runs_of left.now) (runs_of right.now) ≡ ordering_then result (slice_cmp nat_cmp (runs_of (after_run left.now)) (runs_of (after_run right.now))) }
{
    let one = digits(left);
    let other = digits(right);
    if one.is_empty() {
        return left[0].cmp(&right[0]);
    }
    if other.is_empty() {
        return left[0].cmp(&right[0]);
    }
    number_cmp(one, other)
}

/// The digits at the start of the text.
#[tactic(auto, using(crate::proofs::Runs::kept_front))]
fn digits(text: &[u8]) -> &[u8]
    ensures { result.now ≡ take_while is_digit text.now }
{
    &text[..digits_len(text)]
}

/// The number of digits at the start of the text.
fn digits_len(text: &[u8]) -> usize
    ensures { result ≡ length (take_while is_digit text.now) }
{
    text.iter().take_while(|byte| is_digit(**byte)).count()
}

/// Whether the byte is a digit.
fn is_digit(byte: u8) -> bool
    ensures { result ≡ is_digit byte }
{
    matches!(byte, b'0'..=b'9')
}

/// The text after its first run, which is its digits or a byte.
#[tactic(auto, using(crate::proofs::Runs::run_cut))]
fn after_run(text: &[u8]) -> &[u8]
    requires { 0 < length text.now }
    ensures { result.now ≡ after_run text.now }
{
    &text[digits_len(text).max(1)..]
}

/// Compares the numbers with these digits. Without leading zeros the longer one is greater.
#[tactic(auto, using(crate::proofs::Runs::numbers_compared))]
fn number_cmp(one: &[u8], other: &[u8]) -> Ordering
    requires one { list_all is_digit one.now ≡ true }
    requires other { list_all is_digit other.now ≡ true }
    ensures { result ≡ nat_cmp (number_from 0 one.now) (number_from 0 other.now) }
{
    let left = without_zeros(one);
    let right = without_zeros(other);
    left.len().cmp(&right.len()).then(left.cmp(right))
}

/// The digits without the zeros at their start.
#[tactic(auto, using(crate::proofs::Runs::cut_front))]
fn without_zeros(digits: &[u8]) -> &[u8]
    ensures { result.now ≡ drop (prefix_len is_zero digits.now) digits.now }
{
    &digits[zeros_len(digits)..]
}

/// The number of zeros at the start of the digits.
fn zeros_len(digits: &[u8]) -> usize
    ensures { result ≡ length (take_while is_zero digits.now) }
{
    digits.iter().take_while(|byte| is_zero(**byte)).count()
}

/// Whether the byte is the digit 0.
fn is_zero(byte: u8) -> bool
    ensures { result ≡ is_zero byte }
{
    byte == b'0'
}
