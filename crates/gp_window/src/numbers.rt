ghost use Rattle.std.specs.Prelude.{◌≡◌, IfOk};
ghost use Rattle.gp_window.specs.Number.{numbers_of, is_rising};

use gp_base::Row;
use gp_text::{Word, read_u32};
use std::alloc::{AllocError, Global};

/// The words as numbers, where each of them is one.
pub fn numbers_of(alloc: Global, words: &[Word]) -> Result<Option<Row<u32>>, AllocError>
    ensures { IfOk result (λ numbers. numbers ≡ numbers_of words.now) }
{
    let mut numbers = Row::new(alloc);
    for word in words {
        match read_u32(word.as_bytes()) {
            Some(number) => numbers.push(number)?,
            None => return Ok(None),
        }
    }
    Ok(Some(numbers))
}

/// Whether the numbers rise, from `low` on and up to `high`.
pub fn is_rising(low: u32, high: u32, numbers: &[u32]) -> bool
    ensures { result ≡ is_rising low high numbers.now }
{
    let mut least = u64::from(low);
    for number in numbers {
        if u64::from(*number) < least || *number > high {
            return false;
        }
        least = u64::from(*number) + 1;
    }
    true
}
