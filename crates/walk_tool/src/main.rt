#![tactic(auto)]

ghost use Rattle.std.specs.Prelude.{◌≡◌, None};
ghost use Rattle.refusal.specs.declared.Refusal.TheVariants.{BadLine};
ghost use Rattle.digits.specs.Refusals.{refusal_text};
ghost use Rattle.walk_lines.specs.Requests.{request_of};

use digits::line::LONGEST;
use line_tool::{Tool, answer_each};
use std::alloc::{AllocError, Global};
use std::io;

mod answer;

// Prints the words at places of a generator.
struct WalkTool;

impl Tool for WalkTool {
    ghost answers = { λ line text. request_of line ≡ None → text ≡ refusal_text BadLine };

    fn answer(heap: Global, line: &[u8]) -> Result<Vec<u8>, AllocError> {
        answer::answer(heap, line)
    }
}

fn main(rt: HostRuntime) -> io::Result<()> {
    answer_each::<LONGEST, WalkTool, _, _>(rt.alloc(), rt.stdin(), &mut io::writer(&rt))
}
