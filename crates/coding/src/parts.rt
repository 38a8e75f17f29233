// Parts of a slice.
ghost use Rattle.std.specs.Prelude.{◌≡◌, take};

// The first items, or all where there are fewer: what a list and a count beside it are turned into.
pub fn first_of<T>(items: &[T], count: usize) -> &[T]
    ensures { result.now ≡ take count items.now }
{
    items.get(..count).unwrap_or(items)
}
