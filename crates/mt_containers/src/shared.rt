//! A value that several owners keep.
ghost use Rattle.std.specs.Prelude.{◌≡◌, IfOk};

use crate::Copies;
use std::alloc::{AllocError, AllocFailed, Global};
use std::marker::Model;
use std::ops::Deref;
use std::sync::Arc;

/// An `Arc` that contracts see as the value that it points to, so two of equal content are equal.
#[derive(Drop)]
pub struct Shared<T> {
    arc: Arc<T, Global>,
}

impl<T> Model for Shared<T> {
    ghost use Rattle.std.specs.Arc.{arc_value};

    ghost Value = { T };

    ghost view = { λ s. arc_value s.arc };
}

impl<T> Shared<T> {
    /// A first owner of `value`. Refused only where memory runs out, and the value is then handed back.
    pub fn new(alloc: Global, value: T) -> Result<Shared<T>, AllocFailed<T>>
        ensures value { IfOk result (λ s. s ≡ value) }
    {
        let arc = Arc::new(alloc, value)?;
        Ok(Shared { arc })
    }
}

/// One more owner of the same value. Takes no memory.
impl<T: Drop> Clone for Shared<T> {
    ghost is_clone = { λ s t. t ≡ s };

    fn clone(&self) -> Result<Shared<T>, AllocError> {
        Ok(Shared {
            arc: Arc::try_clone(&self.arc)?,
        })
    }
}

impl<T: Drop> Copies for Shared<T> {
    ghost copies = { λ x y h. h };
}

impl<T> Deref for Shared<T> {
    type Target = T;

    ghost deref_gives = { λ s x. x ≡ s };

    fn deref(&self) -> &T
        ensures value { result.now ≡ self.now }
    {
        &self.arc
    }
}

impl<T: PartialEq> PartialEq for Shared<T> {
    ghost eq = { T.eq };

    ghost laws = { T.laws };

    fn eq(&self, other: &Shared<T>) -> bool {
        let a: &T = &self.arc;
        let b: &T = &other.arc;
        a == b
    }
}
