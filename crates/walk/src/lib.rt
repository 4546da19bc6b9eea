#![tactic(auto)]

ghost use Rattle.std.specs.Prelude.{◌≡◌, ◌^◌, ◌<◌, alloc_error};
ghost use Rattle.mother.specs.Means.{means};
ghost use Rattle.walk.specs.Walks.{MovedOn, MovedBack, Walked};
ghost use Rattle.walk.specs.Visits.{Visited};
ghost use Rattle.walk.specs.declared.WalkError.TheVariants.{Refusal as by_refusal, NoMemory};

use mother::Mother;
use mother::place::past;
use mother::two_way::TwoWay;
use refusal::Refusal;
use std::alloc::{AllocError, AllocFailed, Global};

// Why a walk was not made.
#[derive(Clone, Copy, PartialEq, Eq, Debug)]
pub enum WalkError {
    Refusal(Refusal),
    NoMemory(AllocError),
}

impl From<Refusal> for WalkError {
    ghost from_gives = { λ e t. t ≡ by_refusal e };

    fn from(e: Refusal) -> WalkError {
        WalkError::Refusal(e)
    }
}

// For `?` on a `Vec`. (Each error type has its own; a blanket one over them would be for a type of the library's.)
impl<T: Drop> From<AllocFailed<T>> for WalkError {
    ghost from_gives = { λ _ t. t ≡ NoMemory alloc_error };

    fn from(e: AllocFailed<T>) -> WalkError {
        WalkError::NoMemory(e.into())
    }
}

// The word at a place that is not passed yet, by moves on alone.
fn on_to<M: Mother>(mother: &mut M, place: u64) -> Result<M::Word, Refusal>
    ensures { MovedOn (means M.Mother) mother.old place result mother.new }
{
    for _i in mother.place()..place {
        let _ = mother.next()?;
    }
    mother.next()
}

// The word at a place that is passed already, by moves back alone.
fn back_to<M: TwoWay>(mother: &mut M, place: u64) -> Result<M::Word, Refusal>
    requires { place < 2 ^ 34 }
    ensures { MovedBack (means M.Mother) mother.old place result mother.new }
{
    for _i in place + 1..mother.place() {
        let _ = mother.back()?;
    }
    mother.back()
}

// The word at a place, from wherever the generator stands. It is not set up again and does not go
// by the front.
pub fn word_at<M: TwoWay>(mother: &mut M, place: u64) -> Result<M::Word, Refusal>
    ensures { Walked (means M.Mother) mother.old place result mother.new }
{
    let _ = past(place, 1)?;
    if mother.place() <= place {
        on_to(mother, place)
    } else {
        back_to(mother, place)
    }
}

// The words at places, one after another in whatever order.
pub fn words_at<M: TwoWay>(
    heap: Global,
    mother: &mut M,
    places: &[u64],
) -> Result<Vec<M::Word>, WalkError>
    ensures { Visited (means M.Mother) mother.old places.now result mother.new }
{
    let mut words = Vec::new(heap);
    for place in places {
        let word = word_at(mother, *place)?;
        words.push(word)?;
    }
    Ok(words)
}
