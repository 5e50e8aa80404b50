//! Values whose clones are the values that they were made of.
ghost use Rattle.std.specs.Prelude.{◌≡◌};

/// A type whose clone is the same value.
///
/// `Clone` of a container of such values then says that the copy is equal to what it was made of.
pub trait Copies: Clone {
    ghost copies: { (x y : Self) → Self.is_clone x y → y ≡ x };
}

impl Copies for () {
    ghost copies = { λ x y h. h };
}

impl Copies for bool {
    ghost copies = { λ x y h. h };
}

impl Copies for u8 {
    ghost copies = { λ x y h. h };
}

impl Copies for u32 {
    ghost copies = { λ x y h. h };
}

impl Copies for u64 {
    ghost copies = { λ x y h. h };
}

impl Copies for usize {
    ghost copies = { λ x y h. h };
}

impl<T: Copies> Copies for Option<T> {
    ghost use Rattle.std.proofs.Common.{rules};

    ghost copies = { λ x y h. Prim.search rules };
}
