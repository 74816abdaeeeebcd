ghost use Rattle.std.specs.Prelude.{◌≡◌, ◌++◌, ◌^◌, ◌<◌, ◌≤◌, IfSome, IsTrue, SomeIff, OnOk, OnErr, decimal};
ghost use Rattle.std.specs.Char.{is_ascii_digit};
ghost use Rattle.std.specs.Fmt.{signed_decimal};
ghost use Rattle.std.specs.List.{list_all};
ghost use Rattle.std.specs.Str.Parse.{digits_value};
ghost use Rattle.gp_text.specs.Numbers.{OneSpelling, between, is_canonical, negative, number_after, number_of, signed_of, small_number_of};

use crate::line::Word;
use itoa::Buffer;
use std::alloc::AllocError;

/// The number whose canonical decimal the bytes are: no sign, and no zero before other digits.
pub fn read_u64(bytes: &[u8]) -> Option<u64>
    ensures { result ≡ number_of bytes.now }
{
    if !is_canonical(bytes) {
        return None;
    }
    value_of(bytes)
}

/// As `read_u64`, for the numbers below 2^32.
pub fn read_u32(bytes: &[u8]) -> Option<u32>
    ensures { result ≡ small_number_of bytes.now }
{
    u32::try_from(read_u64(bytes)?).ok()
}

/// The number whose canonical decimal the bytes are, with a `-` before it where it is below zero.
pub fn read_i64(bytes: &[u8]) -> Option<i64>
    ensures { result ≡ signed_of bytes.now }
{
    match bytes {
        [b'-', size @ ..] => below_zero(read_u64(size)?),
        _ => i64::try_from(read_u64(bytes)?).ok(),
    }
}

/// The number, where it lies within these bounds, both included.
pub fn between(low: u32, high: u32, number: Option<u32>) -> Option<u32>
    ensures due { result ≡ between low high number }
    ensures within { IfSome result (λ n. (low ≤ n) × (n ≤ high)) }
{
    number.filter(|n| low <= *n && *n <= high)
}

/// The number of a line that is this keyword and one number.
pub fn number_after(keyword: &[u8], words: &[Word]) -> Option<u32>
    ensures { result ≡ number_after keyword.now words.now }
{
    match words {
        [first, number] if first.as_bytes() == keyword => read_u32(number.as_bytes()),
        _ => None,
    }
}

/// Appends the canonical decimal of `value`.
pub fn print_u64(out: &mut Vec<u8>, value: u64) -> Result<(), AllocError>
    ensures ok { OnOk result (out.new.items ≡ out.old.items ++ decimal value) }
    ensures err { OnErr result (out.new.items ≡ out.old.items) }
{
    let mut buffer = Buffer::new();
    let digits = buffer.format(value);
    out.extend_from_slice(digits.as_bytes())
}

/// Appends the canonical decimal of `value`, with a `-` before it where it is below zero.
pub fn print_i64(out: &mut Vec<u8>, value: i64) -> Result<(), AllocError>
    ensures ok { OnOk result (out.new.items ≡ out.old.items ++ signed_decimal value) }
    ensures err { OnErr result (out.new.items ≡ out.old.items) }
{
    let mut buffer = Buffer::new();
    let signed = buffer.format(value);
    out.extend_from_slice(signed.as_bytes())
}

fn is_canonical(bytes: &[u8]) -> bool
    ensures { result ≡ is_canonical bytes.now }
{
    match bytes {
        [] => false,
        [digit] => digit.is_ascii_digit(),
        [first, ..] => *first > b'0' && are_digits(bytes),
    }
}

fn are_digits(bytes: &[u8]) -> bool
    ensures { result ≡ list_all is_ascii_digit bytes.now }
{
    bytes.iter().all(|byte| byte.is_ascii_digit())
}

#[tactic(auto, using(crate::proofs::Digits::next_digit))]
fn value_of(digits: &[u8]) -> Option<u64>
    requires { IsTrue (list_all is_ascii_digit digits.now) }
    ensures { SomeIff result (digits_value 10 digits.now < 2 ^ 64) (digits_value 10 digits.now) }
{
    let mut value = 0u64;
    for digit in digits {
        value = value
            .checked_mul(10)?
            .checked_add(u64::from(*digit - b'0'))?;
    }
    Some(value)
}

fn below_zero(size: u64) -> Option<i64>
    ensures { result ≡ negative (Some size) }
{
    if size == 0 || size > 1 << 63 {
        return None;
    }
    Some(-1 - (size - 1) as i64)
}

/// What is read is exactly the decimal spelling of its value.
pub fn one_spelling()
    ensures { OneSpelling }
{}
