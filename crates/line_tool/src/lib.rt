#![tactic(auto)]

ghost use Rattle.std.specs.Prelude.{ℕ, List, [], ◌∷◌, IfOk, OnOk};
ghost use Rattle.line_tool.specs.Lines.{Printed, Answered};

use pending::{END, Pending};
use std::alloc::{AllocError, Global};
use std::io;
use std::io::{BufReader, Read, Write};

pub mod pending;
#[cfg(test)]
mod tests;

// A tool: what it answers to each line.
pub trait Tool {
    // What may be answered to a line.
    ghost answers: { List ℕ → List ℕ → Type 0 };

    fn answer(heap: Global, line: &[u8]) -> Result<Vec<u8>, AllocError>
        ensures { IfOk result (λ text. answers line.now text.items) };
}

// Prints what is answered to a line, and the byte that ends it.
fn print_answer<T: Tool, W: Write>(heap: Global, line: &[u8], output: &mut W) -> io::Result<()>
    ensures { OnOk result (Printed T.answers (line.now ∷ []) (W.contents output.old) (W.contents output.new)) }
{
    let mut text = T::answer(heap, line)?;
    text.push(END)?;
    output.write_all(&text)
}

// Prints what is answered to each line of the input, before it reads on. Of a line that is longer than `MOST` the tool
// sees one byte more than that.
#[tactic(auto, using(crate::proofs::Printing::going))]
pub fn answer_each<const MOST: usize, T: Tool, R: Read + Drop, W: Write>(
    heap: Global,
    input: R,
    output: &mut W,
) -> io::Result<()>
    ensures { OnOk result
        (Answered T.answers MOST (R.remaining input) (W.contents output.old) (W.contents output.new)) }
{
    let mut pending = Pending::<MOST>::new(heap);
    for b in BufReader::new(heap, input)?.bytes() {
        if let Some(line) = pending.push(b?)? {
            print_answer::<T, W>(heap, &line, output)?;
            pending.reuse(line);
        }
    }
    if let Some(line) = pending.end() {
        print_answer::<T, W>(heap, &line, output)?;
    }
    Ok(())
}
