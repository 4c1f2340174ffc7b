//! What C passes by value, as the header declares it, and how large its answers have to be.
ghost use Rattle.std.specs.Prelude.{◌≡◌};
ghost use Rattle.odfilter_c.specs.Sizes.{fits_status};

/// Bytes that are borrowed for a call.
#[repr(C)]
#[derive(Drop)]
pub struct Bytes {
    pub at: *const u8,
    pub length: usize,
}

/// A buffer for a text.
#[repr(C)]
#[derive(Drop)]
pub struct Buffer {
    pub at: *mut u8,
    pub length: usize,
}

/// Returns 0 where an answer of so many bytes holds all that the calls report, else 4.
#[unsafe(no_mangle)]
pub extern "C" fn odfilter_fits(answer_size: u64) -> u32
    ensures { result ≡ fits_status answer_size }
{
    if answer_size < 96 {
        return 4;
    }
    0
}
