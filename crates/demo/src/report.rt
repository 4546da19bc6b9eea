use crate::fault::Fault;
use crate::record::Piece;
use digits::push_hex;
use std::io;
use std::io::Write;

// A line: some words, and then bytes as hex.
pub(crate) fn hex_line(rt: &HostRuntime, words: &str, bytes: &[u8]) -> Result<(), Fault> {
    let mut line = words.as_bytes().to_vec(rt.alloc())?;
    push_hex(&mut line, bytes)?;
    line.extend_from_slice(b"\n")?;
    rt.stdout().write_all(&line)?;
    Ok(())
}

// What a piece of the trace was covered to.
pub(crate) fn covered(rt: &HostRuntime, piece: Piece<'_>) -> Result<(), Fault> {
    let Piece { first, bytes } = piece;
    let count = bytes.len();
    let words = format!(in rt.alloc(); "covered {count} bytes at position {first}: ")?;
    hex_line(rt, &words, bytes)
}

// Eight addresses to a line.
pub(crate) fn addresses(rt: &HostRuntime, addresses: &[u32]) -> io::Result<()> {
    for line in addresses.chunks(8) {
        if let [first, rest @ ..] = line {
            print!(rt; "{first:08x}")?;
            for a in rest {
                print!(rt; " {a:08x}")?;
            }
            println!(rt)?;
        }
    }
    Ok(())
}

// How many of the addresses came back.
pub(crate) fn came_back(rt: &HostRuntime, count: usize, of: usize) -> io::Result<()> {
    if count == of {
        println!(rt; "all {count} addresses came back")
    } else {
        println!(rt; "{count} of {of} addresses came back")
    }
}
