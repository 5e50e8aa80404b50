//! Search in ascending numbers.
ghost use Rattle.std.specs.Prelude.{◌≡◌, nat_eq};
ghost use Rattle.std.specs.List.{list_any};
ghost use Rattle.std.specs.List.Sorted.{IsStrictlySortedBy};
ghost use Rattle.std.specs.Ordering.{nat_cmp};

/// Whether ascending numbers have this one.
pub fn is_among(numbers: &[u32], number: u32) -> bool
    requires ascending { IsStrictlySortedBy nat_cmp numbers.now }
    ensures among { result ≡ list_any (nat_eq number) numbers.now }
{
    numbers.binary_search(&number).is_ok()
}
