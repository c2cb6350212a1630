//! The wirings of the five shapes.

ghost use Rattle.std.specs.Prelude.{◌≡◌, map, IfOk};
ghost use Rattle.std.specs.List.{range_with_len};
ghost use Rattle.fuse_core.specs.declared.wiring.Growth.TheVariants.{Before};
ghost use Rattle.fuse_core.specs.Wirings.{ending, wires_on, wiring, whole_growths, suffixes_place};
ghost use Rattle.fuse_core.specs.Wirings.{whole_wires, prefix_wires, suffix_wires, segment_wires};

use crate::wiring::{Ending, Growth, Source, Wires};
use shape_gen::Shape;
use std::alloc::{AllocError, Global};

/// The components of a shape, in its order.
pub(crate) fn wiring_of(alloc: Global, shape: Shape, labels: u32) -> Result<Vec<Wires>, AllocError>
    ensures { IfOk result (λ made. map wires_on made.items ≡ wiring shape labels) }
{
    let whole = whole_wires(alloc, shape, labels)?;
    let mut made = vec![in alloc; whole]?;
    match shape {
        Shape::Sublists | Shape::Assign => {}
        Shape::Prefixes => made.push(prefix_wires(alloc)?)?,
        Shape::Suffixes => made.push(suffix_wires(alloc, shape)?)?,
        Shape::Segments => {
            made.push(prefix_wires(alloc)?)?;
            made.push(suffix_wires(alloc, shape)?)?;
            made.push(segment_wires(alloc)?)?;
        }
    }
    Ok(made)
}

/// Where the candidates of a shape are: whole lists, or else those of the last component, and the empty one.
pub(crate) fn ending_of(shape: Shape) -> Ending
    ensures { result ≡ ending shape }
{
    let (place, adds_empty) = match shape {
        Shape::Sublists | Shape::Assign => (0, false),
        Shape::Prefixes | Shape::Suffixes => (1, true),
        Shape::Segments => (3, true),
    };
    Ending { place, adds_empty }
}

// Whole lists.
fn whole_wires(alloc: Global, shape: Shape, labels: u32) -> Result<Wires, AllocError>
    ensures { IfOk result (λ made. wires_on made ≡ whole_wires shape labels) }
{
    Ok(Wires {
        has_empty: true,
        sources: vec![in alloc; Source::Across(0, 0)]?,
        keeps: false,
        growths: whole_growths(alloc, shape, labels)?,
    })
}

// How whole lists grow by a row: with each label.
fn whole_growths(alloc: Global, shape: Shape, labels: u32) -> Result<Vec<Growth>, AllocError>
    ensures { IfOk result (λ made. made.items ≡ whole_growths shape labels) }
{
    match shape {
        Shape::Sublists => Ok(vec![in alloc; Growth::Kept(0), Growth::Before(0, 0)]?),
        Shape::Assign => labelled(alloc, labels),
        _ => Ok(vec![in alloc; Growth::Before(0, 0)]?),
    }
}

fn labelled(alloc: Global, labels: u32) -> Result<Vec<Growth>, AllocError>
    ensures { IfOk result (λ made. made.items ≡ map (λ label. Before label 0) (range_with_len 0 labels)) }
{
    let mut growths = Vec::with_capacity(alloc, labels as usize)?;
    for label in 0..labels {
        growths.push(Growth::Before(label, 0))?;
    }
    Ok(growths)
}

// Prefixes: those of the left half, and its whole with those of the right half.
fn prefix_wires(alloc: Global) -> Result<Wires, AllocError>
    ensures { IfOk result (λ made. wires_on made ≡ prefix_wires) }
{
    Ok(Wires {
        has_empty: false,
        sources: vec![in alloc; Source::Left(1), Source::Across(0, 1)]?,
        keeps: false,
        growths: vec![in alloc; Growth::Alone(0), Growth::Before(0, 1)]?,
    })
}

// Suffixes: those of the right half, and those of the left half with the whole of the right one.
fn suffix_wires(alloc: Global, shape: Shape) -> Result<Wires, AllocError>
    ensures { IfOk result (λ made. wires_on made ≡ suffix_wires (suffixes_place shape)) }
{
    let place = if matches!(shape, Shape::Segments) {
        2
    } else {
        1
    };
    Ok(Wires {
        has_empty: false,
        sources: vec![in alloc; Source::Right(place), Source::Across(place, 0)]?,
        keeps: true,
        growths: vec![in alloc; Growth::Same(0)]?,
    })
}

// Segments: those of either half, and a suffix of the left half with a prefix of the right one.
fn segment_wires(alloc: Global) -> Result<Wires, AllocError>
    ensures { IfOk result (λ made. wires_on made ≡ segment_wires) }
{
    Ok(Wires {
        has_empty: false,
        sources: vec![in alloc; Source::Left(3), Source::Right(3), Source::Across(2, 1)]?,
        keeps: true,
        growths: vec![in alloc; Growth::Same(1)]?,
    })
}
