//! Letters, which give a mark its key and its value, and tuples of maps.

/// What one mark, a row with a label, brings to a product: a key and a value.
#[derive(Drop)]
pub struct Letter<E> {
    pub key: u32,
    pub elem: E,
}

/// One map for each component of the shape, in the shape's order.
#[derive(Drop)]
pub struct Tuple<M> {
    pub maps: Vec<M>,
}
