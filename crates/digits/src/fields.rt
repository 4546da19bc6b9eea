ghost use Rattle.std.specs.Prelude.{◌≡◌, ◌<◌, ◌⊎◌, length, IfSome, Some, None, MatchResult, alloc_error, position, ◌==◌};
ghost use Rattle.std.specs.Option.{option_map};
ghost use Rattle.digits.specs.declared.fields.ListError.TheVariants.{NoMemory};
ghost use Rattle.digits.specs.Cuts.{both, cut_of, decimals_of};

use crate::decimal;
use std::alloc::{AllocError, AllocFailed, Global};

// Where the first byte that is `at` stands.
fn place_of(text: &[u8], at: u8) -> Option<usize>
    ensures { result ≡ position (λ b. b == at) text.now }
{
    text.iter().position(|b| *b == at)
}

// What stands before the first byte that is `at`, and what stands after it.
pub fn cut(text: &[u8], at: u8) -> Option<(&[u8], &[u8])>
    ensures parts { option_map both result ≡ cut_of at text.now }
    ensures shorter { IfSome result (λ p. length p.1.now < length text.now) }
{
    let i = place_of(text, at)?;
    Some((&text[..i], &text[i + 1..]))
}

// Why a text is no list of numbers.
#[derive(Clone, Copy, PartialEq, Eq, Debug)]
pub enum ListError {
    NoNumber,
    NoMemory(AllocError),
}

// For `?` on a `Vec`. (Each error type has its own; a blanket one over them would be for a type of the library's.)
impl<T: Drop> From<AllocFailed<T>> for ListError {
    ghost from_gives = { λ _ t. t ≡ NoMemory alloc_error };

    fn from(e: AllocFailed<T>) -> ListError {
        ListError::NoMemory(e.into())
    }
}

// Decimal numbers with single separators, each the byte `at`, between them.
pub fn decimals(heap: Global, text: &[u8], at: u8) -> Result<Vec<u64>, ListError>
    ensures { MatchResult result (λ v. decimals_of at text.now ≡ Some v.items)
        (λ e. (e ≡ NoMemory alloc_error) ⊎ (decimals_of at text.now ≡ None)) }
{
    let mut numbers = Vec::new(heap);
    for piece in text.split(|b| *b == at) {
        numbers.push(decimal(piece).ok_or(ListError::NoNumber)?)?;
    }
    Ok(numbers)
}
