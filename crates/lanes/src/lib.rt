#![tactic(auto)]

ghost use Rattle.row.specs.Rows.{lane_in};
ghost use Rattle.mother.specs.Means.{means};
ghost use Rattle.lanes.specs.Order.{lanes_of, in_lanes, StartWord, Words0, Words1, Words2, Words3};
ghost use Rattle.lanes.specs.Calls.{Joined, Fresh, RowOn, RowBack};

use hand::{AtHand, row_at_hand};
use mother::Mother;
use mother::place::Place;
use mother::two_way::TwoWay;
use refusal::Refusal;
use row::Row;

mod hand;

// How many words a row has.
const PER_ROW: u64 = 4;

// The rows of the generator below as words of 32 bits, lane [0] of each first. It goes back if the
// one below does. Either way that one moves once for four words, and once more at a turn.
#[derive(Drop)]
pub struct Lanes<M: Mother<Word = Row>> {
    below: M,
    at_hand: Option<AtHand>,
    at: Place,
}

impl<M: Mother<Word = Row>> Lanes<M> {
    // Over a generator at place 0, or over any other before a set-up.
    pub fn new(below: M) -> Self
        ensures { Fresh (means M.Mother) below result.below result.at_hand result.at }
    {
        Lanes {
            below,
            at_hand: None,
            at: Place::front(),
        }
    }

    // The row of the word to come. After a turn the generator below stands before the row at hand,
    // and passes over it.
    fn row_on(&mut self) -> Result<Row, Refusal>
        ensures { RowOn (means M.Mother) self.old.below self.old.at_hand
            self.old.at result self.new.below self.new.at_hand }
    {
        let i = self.at.index() / PER_ROW;
        let place = self.below.place();
        if let Some(row) = row_at_hand(self.at_hand, place, i) {
            return Ok(row);
        }
        if place < i {
            let _ = self.below.next()?;
        }
        let row = self.below.next()?;
        self.at_hand = Some(AtHand::Passed(row));
        Ok(row)
    }
}

impl<M: Mother<Word = Row>> Mother for Lanes<M> {
    type Word = u32;

    ghost start = { λ s. lane_in (M.Mother.start s.below) 0 };

    ghost word = { λ s. lanes_of (M.Mother.word s.below) };

    ghost place = { λ s. s.at };

    ghost given = { λ s key iv. in_lanes (M.Mother.given s.below key iv) };

    ghost sound = { λ s. Joined (means M.Mother) s.below s.at_hand s.at };

    fn set_up(&mut self, key: &[u8], iv: &[u8]) -> Result<u32, Refusal> {
        let start = self.below.set_up(key, iv)?;
        self.at_hand = None;
        self.at = Place::front();
        Ok(start.lane(0))
    }

    fn next(&mut self) -> Result<u32, Refusal> {
        let n = self.at.index();
        let after = self.at.after()?;
        let row = self.row_on()?;
        self.at = after;
        Ok(row.lane(n))
    }

    fn words_are_small() {}

    fn place(&self) -> u64 {
        self.at.index()
    }
}

impl<M: TwoWay + Mother<Word = Row>> Lanes<M> {
    // The row of the word at `before`, the place before this one. After a turn the generator below
    // stands behind the row at hand, and passes over it.
    fn row_back(&mut self, before: Place) -> Result<Row, Refusal>
        ensures { RowBack (means M.Mother) self.old.below self.old.at_hand
            before result self.new.below self.new.at_hand }
    {
        let i = before.index() / PER_ROW;
        let place = self.below.place();
        if let Some(row) = row_at_hand(self.at_hand, place, i) {
            return Ok(row);
        }
        if place > i + 1 {
            let _ = self.below.back()?;
        }
        let row = self.below.back()?;
        self.at_hand = Some(AtHand::Ahead(row));
        Ok(row)
    }
}

impl<M: TwoWay + Mother<Word = Row>> TwoWay for Lanes<M> {
    fn back(&mut self) -> Result<u32, Refusal> {
        let before = self.at.before()?;
        let row = self.row_back(before)?;
        self.at = before;
        Ok(row.lane(before.index()))
    }
}

// The start word is lane [0] of the start row, and the words are the lanes of the rows in their
// order.
pub fn lanes_stand()
    ensures start { StartWord }
    ensures lane_0 { Words0 }
    ensures lane_1 { Words1 }
    ensures lane_2 { Words2 }
    ensures lane_3 { Words3 }
{}
