//! Rows with a place for each key, in which values are gathered.
//! What a row holds is in specs/Rows.antt.

ghost use Rattle.std.specs.Prelude.{◌≡◌, ◌<◌, ◌^◌, length, replicate, IfOk};
ghost use Rattle.key_map.specs.Rows.{slots_from};

use crate::slot::Slot;
use std::alloc::{AllocError, Global};

// A row of this many empty places.
pub(crate) fn empty_row<E: Drop>(alloc: Global, size: u32) -> Result<Vec<Option<E>>, AllocError>
    ensures { IfOk result (λ row. row.items ≡ replicate size None) }
{
    let mut row = Vec::with_capacity(alloc, size as usize)?;
    for _ in 0..size {
        row.push(None)?;
    }
    Ok(row)
}

// The values of a row, each with its place as its key.
pub(crate) fn slots_of<E: Drop>(
    alloc: Global,
    row: Vec<Option<E>>,
) -> Result<Vec<Slot<E>>, AllocError>
    requires { length row.items < 2 ^ 32 }
    ensures { IfOk result (λ slots. slots.items ≡ slots_from 0 row.items) }
{
    let kept = row.iter().filter(|place| place.is_some()).count();
    let mut slots = Vec::with_capacity(alloc, kept)?;
    let mut key = 0;
    for place in row {
        if let Some(elem) = place {
            slots.push(Slot { key, elem })?;
        }
        key += 1;
    }
    Ok(slots)
}
