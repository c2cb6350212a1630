//! How one key moves all keys, in runs of neighbours: for each element of the first component,
//! the runs of the later components.

ghost use Rattle.std.specs.Prelude.{◌≡◌, ◌+◌, ◌*◌, ◌^◌, ◌<◌, ◌≤◌, ◌++◌, IfOk, OnOk, map, All};
ghost use Rattle.monoid_kit.specs.Spans.{moved, AreSpans};
ghost use Rattle.monoid_product.specs.ComponentOf.{plain_components};
ghost use Rattle.monoid_product.specs.Product.{key_count, product_mul};
ghost use Rattle.monoid_product.specs.Nested.{shifted, in_span, nested, AreBelow, IsWithin};

use crate::component::Component;
use crate::product::KEY_LIMIT;
use monoid_kit::{Monoid, Span};
use std::alloc::{AllocError, Global};

// The spans of a key, of which there are so many.
pub(crate) fn product_spans(
    alloc: Global,
    parts: &[Component],
    count: u32,
    a: u32,
) -> Result<Vec<Span>, AllocError>
    requires few { count ≤ KEY_LIMIT }
    requires count { count ≡ key_count (plain_components parts.now) }
    requires is_key { a < count }
    ensures { IfOk result (λ spans.
        AreSpans count (product_mul (plain_components parts.now) a) 0 spans.items) }
{
    match parts {
        [] => one_span(alloc),
        [first, rest @ ..] => {
            let size = first.size();
            let later = count / size;
            let outer = first.spans(alloc, a / later)?;
            if later == 1 {
                return Ok(outer);
            }
            let inner = product_spans(alloc, rest, later, a % later)?;
            nested(alloc, &outer, &inner, size, later)
        }
    }
}

// The one key alone.
fn one_span(alloc: Global) -> Result<Vec<Span>, AllocError>
    ensures { IfOk result (λ spans. AreSpans 1 (λ key. 0) 0 spans.items) }
{
    let mut spans = Vec::with_capacity(alloc, 1)?;
    spans.push(Span {
        from: 0,
        to: 0,
        len: 1,
        rises: true,
    })?;
    Ok(spans)
}

// The spans of all keys. `size` is that of the first component, whose spans are the outer ones;
// the later components have `later` keys, and the inner spans.
fn nested(
    alloc: Global,
    outer: &[Span],
    inner: &[Span],
    size: u32,
    later: u32,
) -> Result<Vec<Span>, AllocError>
    requires few { size * later ≤ KEY_LIMIT }
    requires outer { All (λ span. IsWithin size span) outer.now }
    requires inner { AreBelow later inner.now }
    ensures { IfOk result (λ spans. spans.items ≡ nested later inner.now outer.now) }
{
    let mut spans = Vec::new(alloc);
    for span in outer {
        add_span(&mut spans, *span, inner, size, later)?;
    }
    Ok(spans)
}

// Adds the spans of the keys whose first digit is in the span.
fn add_span(
    spans: &mut Vec<Span>,
    span: Span,
    inner: &[Span],
    size: u32,
    later: u32,
) -> Result<(), AllocError>
    requires few { size * later ≤ KEY_LIMIT }
    requires outer { IsWithin size span }
    requires inner { AreBelow later inner.now }
    ensures { OnOk result (spans.new.items ≡ spans.old.items ++ in_span later inner.now span) }
{
    for i in 0..span.len {
        let to = moved(span, i);
        add_shifted(spans, inner, (span.from + i) * later, to * later)?;
    }
    Ok(())
}

// Where the span moves its element at place i.
fn moved(span: Span, i: u32) -> u32
    requires { moved span i < 2 ^ 32 }
    ensures { result ≡ moved span i }
{
    if span.rises { span.to + i } else { span.to }
}

// Adds the spans, so much further on.
fn add_shifted(spans: &mut Vec<Span>, inner: &[Span], from: u32, to: u32) -> Result<(), AllocError>
    requires from_fits { All (λ span. from + span.from < 2 ^ 32) inner.now }
    requires to_fits { All (λ span. to + span.to < 2 ^ 32) inner.now }
    ensures { OnOk result (spans.new.items ≡ spans.old.items ++ map (shifted from to) inner.now) }
{
    for span in inner {
        spans.push(Span {
            from: from + span.from,
            to: to + span.to,
            len: span.len,
            rises: span.rises,
        })?;
    }
    Ok(())
}
