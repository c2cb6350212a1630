//! Wirings: how the maps of an interval come from those of its halves, or of its first row and the later ones.
//! What they say of lists, and the wirings of the five shapes, are in specs/Wirings.antt.

/// Lists of a component of two halves.
#[derive(Drop)]
pub(crate) enum Source {
    /// Those of a component of the left half.
    Left(usize),
    /// Those of a component of the right half.
    Right(usize),
    /// Each list of a component of the left half, joined with each of one of the right half.
    Across(usize, usize),
}

/// Lists that a row brings to a component of the rows after it.
#[derive(Drop)]
pub(crate) enum Growth {
    /// Those of a component of the later rows, without the row.
    Kept(usize),
    /// The row alone, with this label.
    Alone(u32),
    /// The row with this label before each list of a component of the later rows.
    Before(u32, usize),
    /// What the row brings to a component before.
    Same(usize),
}

/// Where a shape's candidates are, once all rows are joined.
#[derive(Drop)]
pub(crate) struct Ending {
    /// The place of the component whose lists are the candidates.
    pub(crate) place: usize,
    /// The empty candidate isn't among them, and comes before.
    pub(crate) adds_empty: bool,
}

/// How one component comes about.
#[derive(Drop)]
pub(crate) struct Wires {
    /// Of no row it has the empty list, and else none.
    pub(crate) has_empty: bool,
    pub(crate) sources: Vec<Source>,
    /// Its lists of the later rows are lists with the row before them too.
    pub(crate) keeps: bool,
    pub(crate) growths: Vec<Growth>,
}
