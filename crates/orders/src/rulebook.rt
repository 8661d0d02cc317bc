// A rulebook says which orders are lawful for a number of objects, which of their positions an order writes, and the new
// values as a function of the order and the old values.
ghost use Rattle.std.specs.Prelude.{◌≡◌, ℕ, Bool, false, List, slice_index, slice_index_or};
ghost use Rattle.orders.specs.Rulebooks.{RulebookLaws};

pub trait Rulebook {
    // Of an order's bytes and the number of objects.
    ghost lawful: { List ℕ → ℕ → Bool };

    // For each position whether the order writes it.
    ghost mask: { List ℕ → ℕ → List Bool };

    // The new values, from the order and the old values.
    ghost news: { List ℕ → List ℕ → List ℕ };

    // An order, a count, old values and a position are what a caller has at hand, and no two of them are one thing.
    fn is_lawful(&self, order: &[u8], count: usize) -> bool
        ensures { result ≡ lawful order.now count };

    // False past the last position.
    fn writes(&self, order: &[u8], count: usize, position: usize) -> bool
        ensures { result ≡ slice_index_or (mask order.now count) position false };

    // 0 past the last position.
    fn new_value(&self, order: &[u8], olds: &[u32], position: usize) -> u32
        ensures { result ≡ slice_index (news order.now olds.now) position };

    ghost kept: { RulebookLaws lawful mask news };
}
