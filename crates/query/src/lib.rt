#![tactic(auto)]

ghost use Rattle.std.specs.Prelude.{◌≡◌, length, IfOk};
ghost use Rattle.digits.specs.Lines.{Parses};
ghost use Rattle.query.specs.Queries.{kind_of, count_of, query_of};
ghost use Rattle.query.specs.Parsing.{asked};
ghost use Rattle.query.specs.Answers.{Streams, answer_of, printed_of};

use digits::line::{Head, LineError, Named, field};
use digits::refusals::refusal_text;
use digits::{decimal, hex, push_hex};
use refusal::Refusal;
use std::alloc::{AllocError, Global};

// How many keystream bytes a line may ask for.
const MOST: u64 = 4096;

// Which keystream is asked for.
#[derive(Clone, Copy, PartialEq, Eq, Debug)]
pub enum Kind {
    Wide,
}

impl Named for Kind {
    ghost named = { kind_of };

    // (By `==`: with a `match` on the bytes of a name the proof did not close.)
    fn named(name: &[u8]) -> Option<Self> {
        if name == b"wide".as_slice() {
            Some(Kind::Wide)
        } else {
            None
        }
    }
}

// What a line asks for: `count` keystream bytes from position `from` on. (What each line begins with is not one field
// here, since each use names a part of it.)
#[derive(Drop)]
pub struct Query {
    pub kind: Kind,
    pub key: Vec<u8>,
    pub iv: Vec<u8>,
    pub from: u64,
    pub count: usize,
}

// How many bytes a line asks for.
fn counted(text: &[u8]) -> Option<usize>
    ensures { result ≡ count_of text.now }
{
    let n = decimal(text)?;
    (n <= MOST).then_some(n as usize)
}

// What a line asks for.
pub fn parse(heap: Global, line: &[u8]) -> Result<Query, LineError>
    ensures { Parses query_of asked line.now result }
{
    let head = Head::parse(line)?;
    let (from, count) = field(head.rest)?;
    Ok(Query {
        kind: head.kind,
        key: hex(heap, head.key)?,
        iv: hex(heap, head.iv)?,
        from: decimal(from).ok_or(LineError::Malformed)?,
        count: counted(count).ok_or(LineError::Malformed)?,
    })
}

// Writes the keystream bytes that a query asks for over `out`. (There is one kind today; the `match` is where another
// would be picked.)
fn stream(query: &Query, out: &mut [u8]) -> Result<(), Refusal>
    requires { length out.old ≡ query.now.count }
    ensures { Streams (asked query.now) result out.new }
{
    match query.kind {
        Kind::Wide => cryptmt::keystream(&query.key, &query.iv, query.from, out),
    }
}

// What is printed for a query.
fn answer_to(heap: Global, query: &Query) -> Result<Vec<u8>, AllocError>
    ensures { IfOk result (λ text. text.items ≡ answer_of (asked query.now)) }
{
    let mut bytes = vec![in heap; 0; query.count]?;
    match stream(query, &mut bytes) {
        Ok(()) => {
            let mut text = Vec::new(heap);
            push_hex(&mut text, &bytes)?;
            Ok(text)
        }
        Err(refusal) => refusal_text(heap, refusal),
    }
}

// What is printed for a line, without the byte that ends it. (`walk_tool` has these two arms too, over another request
// and under another contract; what a bad line gets is `told` in both.)
pub fn answer(heap: Global, line: &[u8]) -> Result<Vec<u8>, AllocError>
    ensures { IfOk result (λ text. text.items ≡ printed_of line.now) }
{
    match parse(heap, line) {
        Ok(query) => answer_to(heap, &query),
        Err(e) => e.told(heap),
    }
}
