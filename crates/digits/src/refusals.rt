ghost use Rattle.std.specs.Prelude.{◌≡◌, IfOk};
ghost use Rattle.digits.specs.Refusals.{refusal_text};

use refusal::Refusal;
use std::alloc::{AllocError, Global};

// A refusal as it is printed: bytes, since these are what is written.
pub fn refusal_text(heap: Global, refusal: Refusal) -> Result<Vec<u8>, AllocError>
    ensures { IfOk result (λ text. text.items ≡ refusal_text refusal) }
{
    Ok(format!(in heap; "no {refusal}")?.into_bytes())
}
