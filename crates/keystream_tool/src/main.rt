#![tactic(auto)]

ghost use Rattle.std.specs.Prelude.{◌≡◌};
ghost use Rattle.query.specs.Answers.{printed_of};

use digits::line::LONGEST;
use line_tool::{Tool, answer_each};
use std::alloc::{AllocError, Global};
use std::io;

// Prints stretches of a keystream.
struct KeystreamTool;

impl Tool for KeystreamTool {
    ghost answers = { λ line text. text ≡ printed_of line };

    fn answer(heap: Global, line: &[u8]) -> Result<Vec<u8>, AllocError> {
        query::answer(heap, line)
    }
}

fn main(rt: HostRuntime) -> io::Result<()> {
    answer_each::<LONGEST, KeystreamTool, _, _>(rt.alloc(), rt.stdin(), &mut io::writer(&rt))
}
