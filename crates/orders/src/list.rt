// A list of objects that the register keeps: 1 to 8 object numbers, strictly ascending.
ghost use Rattle.std.specs.Prelude.{◌≡◌, ◌≤◌, true, length, Some, None, MatchResult};
ghost use Rattle.orders.specs.Ascending.{ascending};
ghost use Rattle.orders.specs.Fixed.{fixed_items};

use crate::faults::ListFault;
use crate::fixed::FixedVec;

#[derive(Clone, Copy)]
pub struct ObjectList {
    objects: FixedVec<u8, 8>,
    ghost some: { 1 ≤ length (fixed_items objects) },
    ghost ordered: { ascending (fixed_items objects) ≡ true },
}

impl ObjectList {
    ghost use Rattle.orders.specs.Lists.{all_below, list_fault, objects_of};

    // The list as it stands, where it is lawful over `object_count` objects; else the first fault.
    pub fn check(list: &[u8], object_count: usize) -> Result<ObjectList, ListFault>
        ensures { MatchResult result (λ l. (list_fault object_count list.now ≡ None) × (objects_of l ≡ list.now)) (λ f. list_fault object_count list.now ≡ Some f) }
    {
        if list.is_empty() {
            return Err(ListFault::Length);
        }
        let objects = FixedVec::from_slice(list).ok_or(ListFault::Length)?;
        if !Self::all_are_below(list, object_count) {
            return Err(ListFault::Object);
        }
        if !Self::is_ascending(list) {
            return Err(ListFault::Order);
        }
        Ok(ObjectList { objects })
    }

    // The objects in their order.
    pub fn as_slice(&self) -> &[u8]
        ensures objects { result.now ≡ objects_of self.now }
        ensures few { length result.now ≤ 8 }
        ensures ordered { ascending result.now ≡ true }
    {
        self.objects.as_slice()
    }

    fn all_are_below(list: &[u8], object_count: usize) -> bool
        ensures { result ≡ all_below object_count list.now }
    {
        list.iter()
            .all(|object| usize::from(*object) < object_count)
    }

    // Strictly: no object twice.
    fn is_ascending(list: &[u8]) -> bool
        ensures { result ≡ ascending list.now }
    {
        list.is_sorted_by(|object, next| *object < *next)
    }
}
