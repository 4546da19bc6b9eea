ghost use Rattle.std.specs.Prelude.{◌≡◌, ◌≤◌, length, IfOk, vec_len};
ghost use Rattle.demo.specs.Records.{laid_out, trace_of};

use cryptmt::WideCover;
use refusal::Refusal;
use std::alloc::{AllocError, Global};

// How many bytes of the trace come before the filler, and how many bytes of filler.
pub const BEFORE: usize = 37;

pub const FILLER: usize = 1183;

// A trace with filler inside it, so that the rest of it goes over the byte where the generator is handed over, and how
// many of its bytes have gone through a cover.
#[derive(Drop)]
pub struct Record {
    bytes: Vec<u8>,
    passed: usize,
    ghost long: { 1220 ≤ vec_len bytes },
    ghost within: { passed ≤ vec_len bytes },
}

// Bytes that went through a cover, and the position that it answered.
pub struct Piece<'a> {
    pub first: u64,
    pub bytes: &'a [u8],
}

impl Record {
    pub fn new(heap: Global, trace: &[u8]) -> Result<Record, AllocError>
        requires { 37 ≤ length trace.now }
        ensures bytes { IfOk result (λ v. v.bytes.items ≡ laid_out trace.now) }
        ensures found { IfOk result (λ v. trace_of v.bytes.items ≡ trace.now) }
    {
        let (before, after) = trace.split_at(BEFORE);
        let mut bytes = before.to_vec(heap)?;
        bytes.extend_from_slice(&[0; FILLER])?;
        bytes.extend_from_slice(after)?;
        Ok(Record { bytes, passed: 0 })
    }

    // Passes the next bytes, `count` or as many as there are, through a cover.
    pub(crate) fn pass(
        &mut self,
        cover: &mut WideCover,
        count: usize,
    ) -> Result<Piece<'_>, Refusal> {
        let from = self.passed;
        let to = from + count.min(self.bytes.len() - from);
        let first = cover.cover(&mut self.bytes[from..to])?;
        self.passed = to;
        Ok(Piece {
            first,
            bytes: &self.bytes[from..to],
        })
    }

    // Starts over at the first byte.
    pub(crate) fn rewind(&mut self)
        ensures { (self.new.passed ≡ 0) × (self.new.bytes ≡ self.old.bytes) }
    {
        self.passed = 0;
    }

    // The trace, without the filler.
    pub fn trace(&self, heap: Global) -> Result<Vec<u8>, AllocError>
        ensures { IfOk result (λ v. v.items ≡ trace_of self.now.bytes.items) }
    {
        let bytes = self.bytes.as_slice();
        let mut trace = bytes[0..BEFORE].to_vec(heap)?;
        trace.extend_from_slice(&bytes[BEFORE + FILLER..])?;
        Ok(trace)
    }
}
