//! A value for the rows of an interval.
//! What it means that a value stands for its interval is for whoever makes the pieces to say.

/// The value of the rows `lo..hi`.
#[derive(Drop)]
pub struct Piece<V> {
    pub lo: u32,
    pub hi: u32,
    pub value: V,
}
