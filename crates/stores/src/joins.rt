// Two rows joined are a row: the stores of the second are numbered after those of the first.
ghost use Rattle.stores.specs.Sides.{Lies, joined};
ghost use Rattle.stores.specs.Joined.{floors_join};

use crate::rows::Row;
use crate::traits::PutRefusal;

#[derive(Drop)]
pub struct Join<A, B> {
    pub first: A,
    pub second: B,
}

// Which of the two rows has a place of the joined one, and as which of its own. Named as the fields are, where `Either` would
// say left and right.
#[derive(Clone, Copy)]
enum Side {
    First(u8),
    Second(u8),
}

impl<A: Row, B: Row> Join<A, B> {
    fn side_of(&self, place: u8) -> Option<Side>
        ensures { Lies (A.Row.stores self.now.first) (B.Row.stores self.now.second) place result }
    {
        if place >= self.count() {
            return None;
        }
        Some(match place.checked_sub(self.first.count()) {
            Some(p) => Side::Second(p),
            None => Side::First(place),
        })
    }
}

// Each method matches on the side itself: the two rows differ in type, so that no one closure could be asked of either.
impl<A: Row, B: Row> Row for Join<A, B> {
    ghost stores = { joined A.Row.stores B.Row.stores };

    ghost floors_are_ample = { λ row. floors_join (A.Row.stores row.first) (B.Row.stores row.second) (A.Row.floors_are_ample row.first) (B.Row.floors_are_ample row.second) };

    #[tactic(auto, using(crate::specs::Joined::counts_add))]
    fn count(&self) -> u8 {
        self.first.count().saturating_add(self.second.count())
    }

    fn object_count(&self, place: u8) -> Option<usize> {
        match self.side_of(place)? {
            Side::First(p) => self.first.object_count(p),
            Side::Second(p) => self.second.object_count(p),
        }
    }

    fn value(&self, place: u8, object: usize) -> Option<u32> {
        match self.side_of(place)? {
            Side::First(p) => self.first.value(p, object),
            Side::Second(p) => self.second.value(p, object),
        }
    }

    fn remaining(&self, place: u8) -> Option<u32> {
        match self.side_of(place)? {
            Side::First(p) => self.first.remaining(p),
            Side::Second(p) => self.second.remaining(p),
        }
    }

    #[tactic(auto, using(crate::specs::Joined::change_first, crate::specs::Joined::change_second))]
    fn put(&mut self, place: u8, object: usize, value: u32) -> Option<Result<(), PutRefusal>> {
        match self.side_of(place)? {
            Side::First(p) => self.first.put(p, object, value),
            Side::Second(p) => self.second.put(p, object, value),
        }
    }

    #[tactic(auto, using(crate::specs::Joined::change_first, crate::specs::Joined::change_second))]
    fn tidy(&mut self, place: u8) -> Option<()> {
        match self.side_of(place)? {
            Side::First(p) => self.first.tidy(p),
            Side::Second(p) => self.second.tidy(p),
        }
    }
}
