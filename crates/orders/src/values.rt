// The old values that an order is about.
ghost use Rattle.std.specs.Prelude.{◌≡◌, slice_index};

// The value at a position, and 0 past the end. Values and position stay two arguments, since one change may read two positions.
pub(crate) fn value_at(values: &[u32], position: usize) -> u32
    ensures { result ≡ slice_index values.now position }
{
    values.get(position).copied().unwrap_or(0)
}
