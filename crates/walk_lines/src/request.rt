ghost use Rattle.digits.specs.Lines.{Parses};
ghost use Rattle.walk_lines.specs.Requests.{kind_of, request_of};
ghost use Rattle.walk_lines.specs.Parsing.{asked};

use digits::fields::decimals;
use digits::hex;
use digits::line::{Head, LineError, Named};
use std::alloc::Global;

const COMMA: u8 = b',';

// Which generator walks.
#[derive(Clone, Copy, PartialEq, Eq, Debug)]
pub enum Kind {
    Booter,
    Handover,
    Lanes,
}

impl Named for Kind {
    ghost named = { kind_of };

    // (By `==`: with a `match` on the bytes of a name the proof did not close.)
    fn named(name: &[u8]) -> Option<Self> {
        if name == b"booter".as_slice() {
            Some(Kind::Booter)
        } else if name == b"handover".as_slice() {
            Some(Kind::Handover)
        } else if name == b"lanes".as_slice() {
            Some(Kind::Lanes)
        } else {
            None
        }
    }
}

// What a line asks for: the words at places, in their order. (What each line begins with is not one field here, since
// each use names a part of it.)
#[derive(Drop)]
pub struct Request {
    pub kind: Kind,
    pub key: Vec<u8>,
    pub iv: Vec<u8>,
    pub places: Vec<u64>,
}

// What a line asks for.
pub fn parse(heap: Global, line: &[u8]) -> Result<Request, LineError>
    ensures { Parses request_of asked line.now result }
{
    let head = Head::parse(line)?;
    Ok(Request {
        kind: head.kind,
        key: hex(heap, head.key)?,
        iv: hex(heap, head.iv)?,
        places: decimals(heap, head.rest, COMMA)?,
    })
}
