//! The bits of whole numbers.
ghost use Rattle.std.specs.Prelude.{◌↔◌, IsTrue};
ghost use Rattle.odata_functions.specs.Bits.{HasBits};

/// Returns whether the value has every bit of the flags, both as 64 bits in two's complement. Each value has the bits
/// of 0.
#[inline(always)]
pub fn has_bits(value: i64, flags: i64) -> bool
    ensures { IsTrue result ↔ HasBits value flags }
{
    value & flags == flags
}
