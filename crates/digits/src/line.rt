ghost use Rattle.std.specs.Prelude.{◌≡◌, ℕ, List, Option, IfOk};
ghost use Rattle.digits.specs.Cuts.{both};
ghost use Rattle.digits.specs.Lines.{Found, field_of, head_of, malformed_by_hex, malformed_by_list};
ghost use Rattle.digits.specs.Held.{headed};
ghost use Rattle.digits.specs.Refusals.{refusal_text};
ghost use Rattle.digits.specs.declared.line.LineError.TheVariants.{Malformed};
ghost use Rattle.refusal.specs.declared.Refusal.TheVariants.{BadLine};

use crate::HexError;
use crate::fields::{ListError, cut};
use crate::refusals::refusal_text;
use refusal::Refusal;
use std::alloc::{AllocError, Global};

// How many bytes a line may have, without the one that ends it.
pub const LONGEST: usize = 4096;

// What stands between the fields of a line.
const SPACE: u8 = b' ';

// Why a line was not parsed.
#[derive(Clone, Copy, PartialEq, Eq, Debug)]
pub enum LineError {
    Malformed,
    NoMemory(AllocError),
}

impl LineError {
    // What is printed for a line that was not parsed; want of memory is passed on.
    pub fn told(self, heap: Global) -> Result<Vec<u8>, AllocError>
        ensures { IfOk result (λ text. (self ≡ Malformed) × (text.items ≡ refusal_text BadLine)) }
    {
        match self {
            LineError::Malformed => refusal_text(heap, Refusal::BadLine),
            LineError::NoMemory(e) => Err(e),
        }
    }
}

impl From<HexError> for LineError {
    ghost from_gives = { λ e t. t ≡ malformed_by_hex e };

    fn from(e: HexError) -> LineError {
        match e {
            HexError::OddLength | HexError::NoDigit(_) => LineError::Malformed,
            HexError::NoMemory(e) => LineError::NoMemory(e),
        }
    }
}

impl From<ListError> for LineError {
    ghost from_gives = { λ e t. t ≡ malformed_by_list e };

    fn from(e: ListError) -> LineError {
        match e {
            ListError::NoNumber => LineError::Malformed,
            ListError::NoMemory(e) => LineError::NoMemory(e),
        }
    }
}

// The first field of a text, and what stands after the space that ends it.
pub fn field(text: &[u8]) -> Result<(&[u8], &[u8]), LineError>
    ensures { Found (field_of text.now) both result }
{
    cut(text, SPACE).ok_or(LineError::Malformed)
}

// A kind that lines ask for by its name. (With `TryFrom` the contract of `Head::parse` would speak of a relation between
// texts and results; this is a function.)
pub trait Named: Copy {
    ghost named: { List ℕ → Option Self };

    fn named(name: &[u8]) -> Option<Self>
        ensures { result ≡ named name.now };
}

// What every line begins with, KIND KEY IV, and all that is left of it; the key and the IV as they are written.
#[derive(Clone, Copy)]
pub struct Head<'a, K> {
    pub kind: K,
    pub key: &'a [u8],
    pub iv: &'a [u8],
    pub rest: &'a [u8],
}

impl<'a, K: Named> Head<'a, K> {
    // The head of a line. A line of more than `LONGEST` bytes is malformed.
    pub fn parse(line: &'a [u8]) -> Result<Self, LineError>
        ensures { Found (head_of K.named line.now) headed result }
    {
        if line.len() > LONGEST {
            return Err(LineError::Malformed);
        }
        let (name, rest) = field(line)?;
        let (key, rest) = field(rest)?;
        let (iv, rest) = field(rest)?;
        let kind = K::named(name).ok_or(LineError::Malformed)?;
        Ok(Head {
            kind,
            key,
            iv,
            rest,
        })
    }
}
