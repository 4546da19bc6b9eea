#![tactic(auto)]

ghost use Rattle.std.specs.Prelude.{◌≡◌, Some, decimal};
ghost use Rattle.refusal.specs.Numbers.{numbered};

use std::fmt;

// Why a call was sent back. Each case has a number, which users see; docs/REFUSALS.md has the list.
#[derive(Clone, Copy, PartialEq, Eq, Debug)]
pub enum Refusal {
    // a key is loaded already
    KeyLoaded = 1,
    // the key's length is no multiple of 16 from 16 to 256
    KeyLength = 2,
    // no key is loaded
    NoKey = 3,
    // nothing was begun: no session is open, or a cover has had no set-up
    NotBegun = 4,
    // a session is open
    SessionOpen = 5,
    // the IV's length is no multiple of 16 from 16 to 256
    IvLength = 6,
    // the book has this IV
    IvUsed = 7,
    // the book is full
    BookFull = 8,
    // the tape's length is not allowed, or not the session's
    TapeLength = 9,
    // the target is running
    Running = 10,
    // the target is halted
    Halted = 11,
    // more bytes than the tape has
    OverTape = 12,
    // the last position would be passed
    PositionLimit = 13,
    // before the first: a position below the tail, or the word before place 0
    BeforeFirst = 14,
    // past the last: a mark beyond the end, or the word after the last
    PastLast = 15,
    // a line that breaks the rules of its format
    BadLine = 16,
}

impl Refusal {
    // The number that users see. A method, which says at its call what the `u8` is; C is given it.
    pub fn number(self) -> u8
        ensures { result ≡ numbered self }
    {
        self as u8
    }
}

// As its number.
impl fmt::Display for Refusal {
    ghost output = { λ e. Some (decimal (numbered e)) };

    fn fmt<W: fmt::Write>(&self, f: &mut fmt::Formatter<W>) -> fmt::Result {
        write!(f, "{}", self.number())
    }
}
