//! Witnesses and their order. The order is in specs/Shortlex.antt.
ghost use Rattle.std.specs.Prelude.{◌≡◌, ◌++◌, IfOk};
ghost use Rattle.witness_order.specs.Shortlex.{shortlex};

use shape_gen::Mark;
use smallvec::SmallVec;
use std::alloc::{AllocError, Global};
use std::cmp::Ordering;
use std::marker::Model;

/// The marks of a candidate, seen as their list. Up to four take no memory of their own.
#[derive(Debug, Drop)]
pub struct Witness {
    marks: SmallVec<Mark, 4>,
}

impl Model for Witness {
    ghost use Rattle.std.specs.Prelude.{List};
    ghost use Rattle.shape_gen.specs.declared.mark.Mark.{Mark};

    ghost Value = { List Mark };

    ghost view = { λ witness. witness.marks.items };
}

impl Witness {
    /// The witness of these marks. Refuses only for want of memory.
    pub fn of(alloc: Global, marks: &[Mark]) -> Result<Witness, AllocError>
        ensures { IfOk result (λ witness. witness ≡ marks.now) }
    {
        let marks = SmallVec::from_slice(alloc, marks)?;
        Ok(Witness { marks })
    }

    /// The marks. Takes no memory.
    pub fn marks(&self) -> &[Mark]
        ensures { result.now ≡ self.now }
    {
        self.marks.as_slice()
    }
}

/// The shorter one first, and of one length by the first mark in which they differ. Takes no memory.
pub fn shortlex(a: &Witness, b: &Witness) -> Ordering
    ensures { result ≡ shortlex a.now b.now }
{
    let (a, b) = (a.marks(), b.marks());
    match a.len().cmp(&b.len()) {
        Ordering::Equal => a.cmp(b),
        unequal => unequal,
    }
}

/// How a and b joined compare with c and d joined. Neither is made: their marks are walked only where both are
/// of one length. Takes no memory.
pub fn shortlex_joined(a: &Witness, b: &Witness, c: &Witness, d: &Witness) -> Ordering
    ensures { result ≡ shortlex (a.now ++ b.now) (c.now ++ d.now) }
{
    let (a, b) = (a.marks(), b.marks());
    let (c, d) = (c.marks(), d.marks());
    let left = a.len() + b.len();
    match left.cmp(&(c.len() + d.len())) {
        Ordering::Equal => a.iter().chain(b).cmp(c.iter().chain(d)),
        unequal => unequal,
    }
}

/// The marks of a, and then those of b. Refuses only for want of memory.
pub fn joined(alloc: Global, a: &Witness, b: &Witness) -> Result<Witness, AllocError>
    ensures { IfOk result (λ witness. witness ≡ a.now ++ b.now) }
{
    let (a, b) = (a.marks(), b.marks());
    let mut marks = SmallVec::with_capacity(alloc, a.len() + b.len())?;
    marks.extend_from_slice(a)?;
    marks.extend_from_slice(b)?;
    Ok(Witness { marks })
}
