ghost use Rattle.std.specs.Prelude.{◌≡◌, ◌<◌};
ghost use Rattle.booter.specs.Calls.{kth_of, newest_of, output_of, turned_of};
ghost use Rattle.booter.specs.Calls.{output_before_of, turned_before_of, oldest_before_of};
ghost use Rattle.booter.specs.Calls.{Stepped, Unstepped, WordAt, WordBefore};

use crate::register::Register;
use row::Row;
use row::ring::wrapped;

impl Register {
    // The row `k` after the oldest. (The recursion's ring has this line too, and those by which a row is put on and taken
    // back; the index, which is the part to get wrong, is `wrapped` in both.)
    fn at(&self, k: usize) -> Row
        requires { k < self.now.height }
        ensures { result ≡ kth_of self.now k }
    {
        self.rows[wrapped(self.head + k, self.height)]
    }

    // The row fed back last.
    pub(crate) fn newest(&self) -> Row
        ensures { result ≡ newest_of self.now }
    {
        self.at(self.height - 1)
    }

    // The output of the next step.
    fn output(&self) -> Row
        ensures { result ≡ output_of self.now }
    {
        self.at(0).wrapping_add(self.at(self.height - 2))
    }

    // The accumulator after it.
    fn turned(&self) -> Row
        ensures { result ≡ turned_of self.now }
    {
        self.accumulator.odd_product(self.newest().perm_shift2())
    }

    // The output of the last step.
    fn output_before(&self) -> Row
        ensures { result ≡ output_before_of self.now }
    {
        self.newest()
            .wrapping_add(self.accumulator)
            .undo_perm_shift1()
    }

    // The accumulator before it.
    fn turned_before(&self) -> Row
        ensures { result ≡ turned_before_of self.now }
    {
        self.accumulator
            .odd_quotient(self.at(self.height - 2).perm_shift2())
    }

    // The row that it went over.
    fn oldest_before(&self, output: Row) -> Row
        ensures { result ≡ oldest_before_of self.now output }
    {
        output.wrapping_sub(self.at(self.height - 3))
    }

    // A step. It answers the pair of its output and the row fed back, which goes over the oldest.
    pub(crate) fn step(&mut self) -> (Row, Row)
        ensures pair { Stepped self.old result self.new }
        ensures word { WordAt self.old result.0 self.new }
    {
        let output = self.output();
        let accumulator = self.turned();
        let fed = output.perm_shift1().wrapping_sub(accumulator);
        self.rows[self.head] = fed;
        self.head = wrapped(self.head + 1, self.height);
        self.accumulator = accumulator;
        (output, fed)
    }

    // Undoes the last step. It answers the pair of rows that the step answered.
    pub(crate) fn unstep(&mut self) -> (Row, Row)
        ensures pair { Unstepped self.old result self.new }
        ensures word { WordBefore self.old result.0 self.new }
    {
        let fed = self.newest();
        let output = self.output_before();
        let oldest = self.oldest_before(output);
        let accumulator = self.turned_before();
        let last = wrapped(self.head + (self.height - 1), self.height);
        self.rows[last] = oldest;
        self.head = last;
        self.accumulator = accumulator;
        (output, fed)
    }
}
