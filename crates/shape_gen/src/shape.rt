//! The five shapes that a job may generate.

ghost use Rattle.std.specs.Prelude.{◌≡◌, length};

/// Which candidates of its rows a job generates.
#[derive(Clone, Copy, PartialEq, Eq, Debug)]
pub enum Shape {
    /// Every choice of rows.
    Sublists,
    /// Every row with one of the labels.
    Assign,
    /// The first rows, from none to all.
    Prefixes,
    /// The last rows, from none to all.
    Suffixes,
    /// The empty candidate once, and every nonempty run of rows.
    Segments,
}

impl Shape {
    ghost use Rattle.shape_gen.specs.Parts.{components};

    /// How many components an interval of this shape keeps.
    pub fn width(&self) -> u32
        ensures { result ≡ length (components self.now) }
    {
        match self {
            Shape::Sublists | Shape::Assign => 1,
            Shape::Prefixes | Shape::Suffixes => 2,
            Shape::Segments => 4,
        }
    }
}
