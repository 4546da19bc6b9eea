ghost use Rattle.std.specs.Prelude.{◌≡◌, [], ◌∷◌, MatchOption};
ghost use Rattle.line_tool.specs.Lines.{Steps, Takes, kept_of};

use std::alloc::{AllocError, Global};
use std::marker::Model;
use std::mem;

// What ends a line.
pub(crate) const END: u8 = b'\n';

// A line that has begun. Of one that is too long it keeps one byte more than the longest may have: what is kept is too
// long too.
#[derive(Drop)]
pub struct Pending<const MOST: usize> {
    heap: Global,
    bytes: Vec<u8>,
}

impl<const MOST: usize> Model for Pending<MOST> {
    ghost use Rattle.std.specs.Prelude.{ℕ, List};
    ghost use Rattle.line_tool.specs.Lines.{IsKept};

    ghost Value = { List ℕ };

    ghost view = { λ p. p.bytes.items };

    ghost invariant = { λ p. IsKept MOST p.bytes.items };
}

impl<const MOST: usize> Pending<MOST> {
    pub fn new(heap: Global) -> Self
        ensures { result ≡ [] }
    {
        Pending {
            heap,
            bytes: Vec::new(heap),
        }
    }

    // Takes the next byte of the input, and answers the line if that byte ends it.
    pub fn push(&mut self, b: u8) -> Result<Option<Vec<u8>>, AllocError>
        ensures step { Steps MOST self.old b result self.new }
        ensures lines { Takes MOST self.old b result self.new }
    {
        if b == END {
            return Ok(Some(mem::replace(&mut self.bytes, Vec::new(self.heap))));
        }
        if self.bytes.len() <= MOST {
            self.bytes.push(b)?;
        }
        Ok(None)
    }

    // Takes back a line that was answered, before the next one begins, which then need not ask for its room again.
    pub(crate) fn reuse(&mut self, line: Vec<u8>)
        requires { self.old ≡ [] }
        ensures { self.new ≡ [] }
    {
        self.bytes = line;
        self.bytes.clear();
    }

    // The line that the end of the input ends, if one has begun.
    pub fn end(self) -> Option<Vec<u8>>
        ensures { MatchOption result (kept_of MOST self.entry ≡ []) (λ line. kept_of MOST self.entry ≡ line.items ∷ []) }
    {
        if self.bytes.is_empty() {
            None
        } else {
            Some(self.bytes)
        }
    }
}

#[cfg(test)]
mod tests {
    use super::*;
    use std::test::Fail;

    // The lines of an input, each with a bar behind it.
    fn barred(heap: Global, input: &[u8]) -> Result<Vec<u8>, AllocError> {
        let mut pending = Pending::<3>::new(heap);
        let mut out = Vec::new(heap);
        for b in input {
            if let Some(line) = pending.push(*b)? {
                out.extend_from_slice(&line)?;
                out.push(b'|')?;
            }
        }
        if let Some(line) = pending.end() {
            out.extend_from_slice(&line)?;
            out.push(b'|')?;
        }
        Ok(out)
    }

    #[test]
    fn lines_end_where_they_should(rt: HostRuntime) -> Result<(), Fail> {
        let heap = rt.alloc();
        assert_eq!(rt; barred(heap, b"")?.as_slice(), b"".as_slice());
        assert_eq!(rt; barred(heap, b"a")?.as_slice(), b"a|".as_slice());
        assert_eq!(rt; barred(heap, b"a\n")?.as_slice(), b"a|".as_slice());
        assert_eq!(rt; barred(heap, b"\n\nab")?.as_slice(), b"||ab|".as_slice());
        assert_eq!(rt;
            barred(heap, b"abc\nabcd\nabcde\n")?.as_slice(),
            b"abc|abcd|abcd|".as_slice()
        );
        Ok(())
    }
}
