//! The most bytes of a chunk (`CHUNK`), and lists of numbers in rising order.
ghost use Rattle.std.specs.Prelude.{◌≡◌, ◌+◌, ◌^◌, ◌<◌, IfOk};
ghost use Rattle.std.specs.List.{range_with_len};

use std::alloc::{AllocError, Global};

/// The most bytes that are taken from a source at once, and that one write or read of a script has.
pub const CHUNK: usize = 4_096;

/// The numbers from 0 to n - 1, in rising order, in one block of 4 n bytes. Fails only if memory runs out.
pub fn numbers_below(alloc: Global, n: u32) -> Result<Vec<u32>, AllocError>
    ensures { IfOk result (λ v. v.items ≡ range_with_len 0 n) }
{
    numbers_from(alloc, 0, n)
}

/// The `n` numbers from `first` on, in rising order, in one block of 4 n bytes. `first` plus `n` must be below 2^32.
/// Fails only if memory runs out.
pub fn numbers_from(alloc: Global, first: u32, n: u32) -> Result<Vec<u32>, AllocError>
    requires { first + n < 2 ^ 32 }
    ensures { IfOk result (λ v. v.items ≡ range_with_len first n) }
{
    let mut numbers = Vec::with_capacity(alloc, n as usize)?;
    numbers.extend(first..first + n)?;
    Ok(numbers)
}
