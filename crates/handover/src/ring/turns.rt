ghost use Rattle.std.specs.Prelude.{◌≡◌, ℕ, ◌<◌};
ghost use Rattle.row.specs.declared.Row.{Row};
ghost use Rattle.handover.specs.Recursion.{marked as marked_row};
ghost use Rattle.handover.specs.Calls.{kth_of, newer_of, older_of, Seeded};
ghost use Rattle.handover.specs.Calls.{TurnedOn, GoesOn, TurnedInto, TurnedBack, GoesBack, RecordedNext, Forgot};

use crate::ring::{ROWS, Ring};
use row::ring::wrapped;
use row::{Row, recursion};

const MASK: Row = Row {
    l0: 0xef7bffff,
    l1: 0xffdbffff,
    l2: 0xf5dabfff,
    l3: 0xffdfafdf,
};

// Replaces lane [3] of x_0.
const MARK: u32 = 0x4d734e48;

// The rows that a step is made of, counted from the oldest.
const OLDEST: usize = 0;

const MIDDLE: usize = 108;

const NEWEST: usize = ROWS - 1;

fn marked(word: Row) -> Row
    ensures { result ≡ marked_row word }
{
    Row { l3: MARK, ..word }
}

// The row x_n, from the word `n` below, for an n below 156.
fn seeded(n: usize, word: Row) -> Row
    ensures { Seeded n word result }
{
    if n == 0 { marked(word) } else { word }
}

impl Ring {
    pub(crate) fn new() -> Ring {
        Ring {
            rows: [Row::default(); ROWS],
            head: 0,
        }
    }

    // The row `k` after the oldest. (The booter's register has this line, and the two by which a row is put on and those
    // by which one is taken back. One for both would take rows, head, height and row, and be as long.) Each `k` is a
    // constant: a type for it would guard nothing.
    fn at(&self, k: usize) -> Row
        requires { k < 156 }
        ensures { result ≡ kth_of self.now k }
    {
        self.rows[wrapped(self.head + k, ROWS)]
    }

    // The row after the newest.
    fn newer(&self) -> Row
        ensures { result ≡ newer_of self.now }
    {
        recursion::step(MASK, self.at(NEWEST), self.at(MIDDLE), self.at(OLDEST))
    }

    // The row before the oldest.
    fn older(&self) -> Row
        ensures { result ≡ older_of self.now }
    {
        recursion::unstep(
            MASK,
            self.at(NEWEST),
            self.at(NEWEST - 1),
            self.at(MIDDLE - 1),
        )
    }

    // Puts the next row over the oldest, and answers it.
    pub(crate) fn forward(&mut self) -> Row
        ensures turn { TurnedOn self.old result self.new }
        ensures held { GoesOn self.old result self.new }
    {
        let new = self.newer();
        self.rows[self.head] = new;
        self.head = wrapped(self.head + 1, ROWS);
        new
    }

    // Steps on once for each place of `words`, and writes the new row there. Both indices and the newest
    // row stay outside the ring meanwhile, so that the loop waits for no memory: found anew for each row,
    // they cost a cover over half as much time again.
    pub(crate) fn forward_into(&mut self, words: &mut [Row])
        ensures { TurnedInto self.old self.new words.new }
    {
        let mut head = self.head;
        let mut middle = wrapped(head + MIDDLE, ROWS);
        let mut newest = self.at(NEWEST);
        for word in words.iter_mut() {
            newest = recursion::step(MASK, newest, self.rows[middle], self.rows[head]);
            self.rows[head] = newest;
            *word = newest;
            head = wrapped(head + 1, ROWS);
            middle = wrapped(middle + 1, ROWS);
        }
        self.head = head;
    }

    // Puts the row before the oldest over the newest, which it answers.
    pub(crate) fn backward(&mut self) -> Row
        ensures turn { TurnedBack self.old result self.new }
        ensures held { GoesBack self.old result self.new }
    {
        let newest = self.at(NEWEST);
        let old = self.older();
        let last = wrapped(self.head + NEWEST, ROWS);
        self.rows[last] = old;
        self.head = last;
        newest
    }

    // Records the word `n` below. With the last the row x_156 is made, which no word shows. The caller has compared
    // `n` with 156, to choose between two generators; a type for it would compare once more.
    pub(crate) fn record(&mut self, n: usize, word: Row)
        requires { n < 156 }
        ensures { RecordedNext self.old n word self.new }
    {
        self.rows[wrapped(self.head + n, ROWS)] = seeded(n, word);
        if n == NEWEST {
            let _ = self.forward();
        }
    }

    // Undoes `record`, for an `n` as there.
    pub(crate) fn forget(&mut self, n: usize)
        requires { n < 156 }
        ensures { Forgot self.old n self.new }
    {
        if n == NEWEST {
            let _ = self.backward();
        }
    }
}
