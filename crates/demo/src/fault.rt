use refusal::Refusal;
use std::alloc::{AllocError, AllocFailed};
use std::{fmt, io};

// Why the demo stops before its end. (The conversions are written out: for `thiserror`, `Refusal` would have to be an
// `Error`.)
#[derive(Drop)]
pub enum Fault {
    Refused(Refusal),
    NoMemory(AllocError),
    Io(io::Error),
}

impl From<Refusal> for Fault {
    fn from(refusal: Refusal) -> Fault {
        Fault::Refused(refusal)
    }
}

impl From<AllocError> for Fault {
    fn from(e: AllocError) -> Fault {
        Fault::NoMemory(e)
    }
}

impl From<io::Error> for Fault {
    fn from(e: io::Error) -> Fault {
        Fault::Io(e)
    }
}

// As `main` prints the error that it returns. (Written out, since of want of memory the name alone is printed.)
impl fmt::Debug for Fault {
    fn fmt<W: fmt::Write>(&self, f: &mut fmt::Formatter<W>) -> fmt::Result {
        match self {
            Fault::Refused(refusal) => f.debug_tuple("Refused").field(refusal).finish(),
            Fault::NoMemory(_) => f.write_str("NoMemory"),
            Fault::Io(e) => f.debug_tuple("Io").field(e).finish(),
        }
    }
}

impl Fault {
    // Says why the demo stops: a refusal by its number, and want of memory as an error.
    pub(crate) fn tell(&self, rt: &HostRuntime) -> io::Result<()> {
        match self {
            Fault::Refused(refusal) => println!(rt; "refused: {refusal}"),
            Fault::NoMemory(_) => eprintln!(rt; "no memory"),
            Fault::Io(_) => Ok(()),
        }
    }
}
