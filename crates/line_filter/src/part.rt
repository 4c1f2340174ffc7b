//! One of the equal parts of a text.
ghost use Rattle.std.specs.Prelude.{◌≡◌, ◌<◌, ◌≤◌, ◌↔◌, IfSome, IsSome};
ghost use Rattle.line_filter.specs.Parts.{part_end};

/// One of so many equal parts, by its number from 1.
#[derive(Clone, Copy, Debug, PartialEq, Eq)]
pub struct Part {
    pub number: u32,
    pub count: u32,
    pub ghost first: { 1 ≤ number },
    pub ghost last: { number ≤ count },
}

impl Part {
    /// Returns the part of this number, from 1, of so many; `None` where there is no such part.
    pub fn new(number: u32, count: u32) -> Option<Part>
        ensures made { IsSome result ↔ ((1 ≤ number) × (number ≤ count)) }
        ensures value { IfSome result (λ part. (part.number ≡ number) × (part.count ≡ count)) }
    {
        if 1 <= number && number <= count {
            return Some(Part { number, count });
        }
        None
    }
}

/// Where the part of this number ends, of so many equal parts of so many bytes.
pub(crate) fn part_end(size: u64, count: u32, number: u32) -> u64
    requires some { 0 < count }
    requires within { number ≤ count }
    ensures { result ≡ part_end size count number }
{
    let bytes = u128::from(size) * u128::from(number);
    (bytes / u128::from(count)) as u64
}
