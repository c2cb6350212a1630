//! Runs of neighbouring elements that a left factor moves together.
//! What a list of them says is in specs/Spans.antt.

/// A run of neighbouring elements that a left factor moves together: `len` of them, from `from` on.
/// Where it rises, the product with `from + i` is `to + i`, and else it is `to` for each of them.
#[derive(Clone, Copy, PartialEq, Eq, Debug)]
pub struct Span {
    pub from: u32,
    pub to: u32,
    pub len: u32,
    pub rises: bool,
}
