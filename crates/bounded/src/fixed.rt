ghost use Rattle.std.specs.Prelude.{◌≡◌, ◌≤◌, length, ⊤};

use std::alloc::AllocError;

mod make;

// Up to N values in their order, by value and with no memory claimed. What stands behind the length is never shown.
pub struct FixedVec<T, const N: usize> {
    len: usize,
    items: [T; N],
    ghost fits: { len ≤ N },
    ghost full: { length items ≡ N },
}

impl<T: Copy, const N: usize> Clone for FixedVec<T, N> {
    ghost is_clone = { λ s r. r ≡ s };

    ghost is_infallible = { λ _. ⊤ };

    fn clone(&self) -> Result<FixedVec<T, N>, AllocError> {
        Ok(*self)
    }
}

impl<T: Copy, const N: usize> Copy for FixedVec<T, N> {}
