//! Rows of sixteen digits.
ghost use Rattle.std.specs.Prelude.{◌≡◌, ℕ, ◌<◌, IfOk, Some, None, option_copied, length, replicate};
ghost use Rattle.mt_trie.specs.Rows.{IsChanged, child};

use mt_containers::Shared;
use std::alloc::{AllocError, Global};
use std::marker::Model;

/// A child or none for each of sixteen digits, and at least one child.
#[derive(Drop)]
pub struct Row<T> {
    children: Vec<Option<Shared<T>>>,
}

impl<T> Model for Row<T> {
    ghost use Rattle.mt_trie.specs.Rows.{IsRow, Row};

    ghost Value = { Row T };

    ghost view = { λ r. r.children.items };

    ghost invariant = { λ r. IsRow r.children.items };
}

impl<T> Row<T> {
    /// The child at a digit; `None` from 16 on.
    pub fn child(&self, digit: u32) -> Option<&Shared<T>>
        ensures child { option_copied result ≡ child (Some self.now) digit }
    {
        self.children.get(digit as usize)?.as_ref()
    }
}

impl<T: Drop> Row<T> {
    /// The children, each with one more owner.
    fn children(&self, alloc: Global) -> Result<Vec<Option<Shared<T>>>, AllocError>
        ensures sixteen { IfOk result (λ children. length children.items ≡ 16) }
        ensures same { IfOk result (λ children. children.items ≡ self.now) }
    {
        let mut children = Vec::with_capacity(alloc, 16)?;
        for child in self.children.as_slice() {
            children.push(child.clone()?)?;
        }
        Ok(children)
    }
}

/// No child at any of the sixteen digits.
fn no_children<T: Drop>(alloc: Global) -> Result<Vec<Option<Shared<T>>>, AllocError>
    ensures none { IfOk result (λ children. children.items ≡ replicate 16 None) }
{
    let mut children = Vec::with_capacity(alloc, 16)?;
    for _digit in 0..16usize {
        children.push(None)?;
    }
    Ok(children)
}

/// The children of a row; none where there is no row.
fn children_of<T: Drop>(
    alloc: Global,
    row: Option<&Shared<Row<T>>>,
) -> Result<Vec<Option<Shared<T>>>, AllocError>
    ensures sixteen { IfOk result (λ children. length children.items ≡ 16) }
    ensures same { IfOk result (λ children. (at : ℕ) → child (Some children.items) at ≡ child (option_copied row.entry) at) }
{
    match row {
        Some(row) => row.children(alloc),
        None => no_children(alloc),
    }
}

/// The row of these children; none where there is no child.
fn row_of<T: Drop>(
    alloc: Global,
    children: Vec<Option<Shared<T>>>,
) -> Result<Option<Shared<Row<T>>>, AllocError>
    requires sixteen { length children.items ≡ 16 }
    ensures same { IfOk result (λ row. (at : ℕ) → child row at ≡ child (Some children.items) at) }
{
    if children.iter().any(Option::is_some) {
        Ok(Some(Shared::new(alloc, Row { children })?))
    } else {
        Ok(None)
    }
}

/// The child of a row at a digit; `None` where there is no row, and from 16 on.
pub fn child<T>(row: Option<&Shared<Row<T>>>, digit: u32) -> Option<&Shared<T>>
    ensures child { option_copied result ≡ child (option_copied row.entry) digit }
{
    row?.child(digit)
}

/// The row with another child, or none, at one digit; no row where no child is left.
pub fn changed<T: Drop>(
    alloc: Global,
    row: Option<&Shared<Row<T>>>,
    digit: u32,
    child: Option<Shared<T>>,
) -> Result<Option<Shared<Row<T>>>, AllocError>
    requires digit { digit < 16 }
    ensures changed { IfOk result (IsChanged (option_copied row.entry) digit child) }
{
    let mut children = children_of(alloc, row)?;
    children[digit as usize] = child;
    row_of(alloc, children)
}
