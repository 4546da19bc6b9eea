ghost use Rattle.lanes.specs.Hands.{Found};

use row::Row;

// The row got from the generator below last, and on which side of its place it lies.
#[derive(Clone, Copy)]
pub enum AtHand {
    // the word before the place, got by `next`
    Passed(Row),
    // the word at the place, got by `back`
    Ahead(Row),
}

// Row `i`, if it is the one at hand where the generator below stands at `place`.
pub(crate) fn row_at_hand(at_hand: Option<AtHand>, place: u64, i: u64) -> Option<Row>
    ensures { Found at_hand place i result }
{
    match at_hand? {
        AtHand::Passed(row) => (place.checked_sub(1) == Some(i)).then_some(row),
        AtHand::Ahead(row) => (place == i).then_some(row),
    }
}
