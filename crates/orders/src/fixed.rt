// A short list in an array of a fixed size.
ghost use Rattle.std.specs.Prelude.{◌≡◌, ◌<◌, ◌≤◌, ⊤, min, length, take, MatchOption};

use std::alloc::AllocError;

// Up to `N` items, in the front of the array: no heap. The library's `ArrayVec` is no `Copy` type, and what holds these lists
// is one.
pub struct FixedVec<T, const N: usize> {
    items: [T; N],
    count: usize,
    ghost few: { count ≤ N },
}

impl<T: Copy, const N: usize> Copy for FixedVec<T, N> {}

// No derive: a generic struct with a ghost field has none.
impl<T: Copy, const N: usize> Clone for FixedVec<T, N> {
    ghost is_clone = { λ x y. y ≡ x };

    ghost is_infallible = { λ _. ⊤ };

    fn clone(&self) -> Result<FixedVec<T, N>, AllocError> {
        Ok(*self)
    }
}

impl<T: Copy, const N: usize> FixedVec<T, N> {
    ghost use Rattle.orders.specs.Fixed.{fixed_items};

    // The first `count` items of the array, all of them where it has fewer.
    pub fn front(items: [T; N], count: usize) -> FixedVec<T, N>
        ensures { fixed_items result ≡ take (min count N) items }
    {
        FixedVec {
            items,
            count: count.min(N),
        }
    }

    // A copy of the items, unless they are more than `N`.
    pub fn from_slice(items: &[T]) -> Option<FixedVec<T, N>>
    where
        T: Default,
        ensures { MatchOption result (N < length items.now) (λ v. fixed_items v ≡ items.now) }
    {
        if items.len() > N {
            return None;
        }
        let mut array = [T::default(); N];
        array[..items.len()].copy_from_slice(items);
        Some(FixedVec {
            items: array,
            count: items.len(),
        })
    }

    pub fn as_slice(&self) -> &[T]
        ensures items { result.now ≡ fixed_items self.now }
        ensures few { length result.now ≤ N }
    {
        &self.items[..self.count]
    }
}
