ghost use Rattle.std.specs.Prelude.{⊤, ◌≡◌, ◌≤◌, length};

use std::alloc::AllocError;

pub mod comparing;
pub mod filling;
pub mod iterating;

// At most `N` elements: those of the first `count` places, in order.
pub struct ShortList<T, const N: usize> {
    places: [T; N],
    count: usize,
    ghost sized: { length places ≡ N },
    ghost fits: { count ≤ N },
}

impl<T: Copy, const N: usize> Clone for ShortList<T, N> {
    ghost is_clone = { λ list other. other ≡ list };

    ghost is_infallible = { λ _. ⊤ };

    fn clone(&self) -> Result<Self, AllocError> {
        Ok(*self)
    }
}

impl<T: Copy, const N: usize> Copy for ShortList<T, N> {}
