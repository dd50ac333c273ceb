//! A part of a slice.

ghost use Rattle.std.specs.Prelude.{◌≡◌};
ghost use Rattle.std.specs.List.{slice_range};

/// The elements from a place up to another, as far as there are any.
pub fn part<T: Drop>(items: &[T], from: usize, to: usize) -> &[T]
    ensures { result.now ≡ slice_range items.now from to }
{
    let (_, rest) = items.split_at(from.min(items.len()));
    let (front, _) = rest.split_at(to.saturating_sub(from).min(rest.len()));
    front
}
