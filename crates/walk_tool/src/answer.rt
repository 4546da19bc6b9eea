ghost use Rattle.std.specs.Prelude.{◌≡◌, ℕ, List, ◌++◌, IfOk, None};
ghost use Rattle.refusal.specs.declared.Refusal.TheVariants.{BadLine};
ghost use Rattle.digits.specs.Refusals.{refusal_text};
ghost use Rattle.walk_lines.specs.Requests.{request_of};
ghost use Rattle.row.specs.Bytes.{row_bytes, lane_bytes};
ghost use Rattle.digits.specs.Digits.{spelled};
ghost use Rattle.walk_tool.specs.Texts.{joined, Told};

use booter::Booter;
use digits::push_hex;
use digits::refusals::refusal_text;
use handover::Handover;
use lanes::Lanes;
use mother::Mother;
use mother::two_way::TwoWay;
use row::Row;
use std::alloc::{AllocError, Global};
use walk::{WalkError, words_at};
use walk_lines::request::{Kind, Request, parse};

// A word that is printed by its bytes, the lowest first.
trait Printed: Copy {
    ghost bytes: { Self → List ℕ };

    fn push_to(self, text: &mut Vec<u8>) -> Result<(), AllocError>
        ensures { IfOk result (λ _. text.new.items ≡ text.old.items ++ spelled (bytes self)) };
}

impl Printed for Row {
    ghost bytes = { row_bytes };

    fn push_to(self, text: &mut Vec<u8>) -> Result<(), AllocError> {
        push_hex(text, &self.to_bytes())
    }
}

impl Printed for u32 {
    ghost bytes = { lane_bytes };

    fn push_to(self, text: &mut Vec<u8>) -> Result<(), AllocError> {
        push_hex(text, &self.to_le_bytes())
    }
}

// The words that a request asks for, from one state that is set up once.
fn walked<M: TwoWay + Drop>(
    heap: Global,
    mut mother: M,
    request: &Request,
) -> Result<Vec<M::Word>, WalkError> {
    let _ = mother.set_up(&request.key, &request.iv)?;
    words_at(heap, &mut mother, &request.places)
}

// Words with single spaces between them.
fn words_text<W: Printed>(heap: Global, words: &[W]) -> Result<Vec<u8>, AllocError>
    ensures { IfOk result (λ text. text.items ≡ joined W.bytes words.now) }
{
    let mut text = Vec::new(heap);
    if let Some((first, rest)) = words.split_first() {
        first.push_to(&mut text)?;
        for word in rest {
            text.push(b' ')?;
            word.push_to(&mut text)?;
        }
    }
    Ok(text)
}

// What is printed for the words of a walk.
fn told<W: Printed>(heap: Global, walk: Result<Vec<W>, WalkError>) -> Result<Vec<u8>, AllocError>
    ensures { IfOk result (λ text. Told W.bytes walk text.items) }
{
    match walk {
        Ok(words) => words_text(heap, &words),
        Err(WalkError::Refusal(refusal)) => refusal_text(heap, refusal),
        Err(WalkError::NoMemory(e)) => Err(e),
    }
}

// Each kind is a generator of another type, which the `match` makes.
fn answer_to(heap: Global, request: &Request) -> Result<Vec<u8>, AllocError> {
    let booter = Booter::new();
    match request.kind {
        Kind::Booter => told(heap, walked(heap, booter, request)),
        Kind::Handover => told(heap, walked(heap, Handover::new(booter), request)),
        Kind::Lanes => told(
            heap,
            walked(heap, Lanes::new(Handover::new(booter)), request),
        ),
    }
}

// What is printed for a line, without the byte that ends it. (`query` has these two arms too, over another request and
// under another contract; what a bad line gets is `told` in both.)
pub(crate) fn answer(heap: Global, line: &[u8]) -> Result<Vec<u8>, AllocError>
    ensures { IfOk result (λ text. request_of line.now ≡ None → text.items ≡ refusal_text BadLine) }
{
    match parse(heap, line) {
        Ok(request) => answer_to(heap, &request),
        Err(e) => e.told(heap),
    }
}
