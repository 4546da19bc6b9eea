ghost use Rattle.std.specs.Prelude.{◌≡◌, ◌∷◌};

use super::*;
use std::io::ErrorKind;
use std::test::Fail;

// Answers a line by a bar and the line.
struct Bar;

impl Tool for Bar {
    ghost answers = { λ line text. text ≡ 124 ∷ line };

    fn answer(heap: Global, line: &[u8]) -> Result<Vec<u8>, AllocError> {
        let mut text = Vec::new(heap);
        text.push(b'|')?;
        text.extend_from_slice(line)?;
        Ok(text)
    }
}

// A reader that fails.
#[derive(Drop)]
struct Broken;

impl Read for Broken {
    fn read(&mut self, _buf: &mut [u8]) -> io::Result<usize> {
        Err(ErrorKind::BrokenPipe.into())
    }
}

#[test]
fn each_line_is_answered(rt: HostRuntime) -> Result<(), Fail> {
    let heap = rt.alloc();
    for (input, want) in [
        ("", ""),
        ("a", "|a\n"),
        ("ab\nc\n", "|ab\n|c\n"),
        ("\n\nd", "|\n|\n|d\n"),
        ("abcde\nf", "|abcd\n|f\n"),
    ] {
        let mut output = Vec::new(heap);
        answer_each::<3, Bar, _, _>(heap, input.as_bytes(), &mut output)?;
        assert_eq!(rt; output.as_slice(), want.as_bytes(), "at {input}");
    }
    Ok(())
}

#[test]
fn a_line_is_answered_before_more_is_read(rt: HostRuntime) -> Result<(), Fail> {
    let heap = rt.alloc();
    let mut output = Vec::new(heap);
    let input = b"a\nb".as_slice().chain(Broken);
    assert!(rt; answer_each::<3, Bar, _, _>(heap, input, &mut output).is_err());
    assert_eq!(rt; output.as_slice(), b"|a\n".as_slice());
    Ok(())
}
