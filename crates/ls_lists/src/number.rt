//! Numbers in 32 bits.

ghost use Rattle.std.specs.Prelude.{◌≡◌, ◌<◌, IfOk, IfErr};

use std::alloc::AllocError;

/// The largest number of 32 bits.
pub const MOST_NARROW: usize = 0xFFFF_FFFF;

/// A number in 32 bits, for what is kept many times. There are more things than that only where there is memory for
/// four thousand million of them.
///
/// # Errors
///
/// Exactly where it needs more bits: as if an allocation were refused.
#[inline(always)]
pub fn narrow(number: usize) -> Result<u32, AllocError>
    ensures value { IfOk result (λ narrow. narrow ≡ number) }
    ensures refused { IfErr result (λ _. MOST_NARROW < number) }
{
    if number > MOST_NARROW {
        return Err(AllocError);
    }
    Ok(number as u32)
}
