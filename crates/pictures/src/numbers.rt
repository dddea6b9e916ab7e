// Reads the text of a list: each line is a case, ';' separates its sections, and spaces separate the numbers of a
// section. Empty lines and lines that begin with '#' hold no case.
use std::alloc::{AllocError, Global};

// Says why a line gives no case.
#[derive(Clone, Copy, Debug)]
pub(crate) enum Unread {
    Malformed,
    OutOfMemory(AllocError),
}

impl From<AllocError> for Unread {
    fn from(error: AllocError) -> Unread {
        Unread::OutOfMemory(error)
    }
}

// Reads a number of digits alone. (std's `parse` takes a sign `+` before them too, and a list has none.)
fn with_digit(value: usize, byte: &u8) -> Result<usize, Unread> {
    let digit = char::from(*byte).to_digit(10).ok_or(Unread::Malformed)?;
    value
        .checked_mul(10)
        .and_then(|tens| tens.checked_add(digit as usize))
        .ok_or(Unread::Malformed)
}

fn number(word: &[u8]) -> Result<usize, Unread> {
    word.iter().try_fold(0, with_digit)
}

// Reads the numbers of a section, and stops at one more than `most`, which are too many.
pub(crate) fn numbers(alloc: Global, section: &[u8], most: usize) -> Result<Vec<usize>, Unread> {
    section
        .split(|byte| *byte == b' ')
        .filter(|word| !word.is_empty())
        .take(most.saturating_add(1))
        .map(number)
        .try_collect(alloc)
}

// Reads a section of at most as many numbers as the array has. Zeros stand for those that it leaves out.
pub(crate) fn array<const N: usize>(alloc: Global, section: &[u8]) -> Result<[usize; N], Unread> {
    let read = numbers(alloc, section, N)?;
    if read.len() > N {
        return Err(Unread::Malformed);
    }
    let mut array = [0; N];
    array[..read.len()].copy_from_slice(&read);
    Ok(array)
}

// Gives a number as a narrower one, and 0 where it does not fit: `call` makes a division's settings before it looks
// which call it is, and other calls have any number in their places.
pub(crate) fn narrow<T: TryFrom<usize> + Default>(value: usize) -> T
where
    <T as TryFrom<usize>>::Error: Drop,
{
    T::try_from(value).unwrap_or_default()
}
