//! The nodes of a tree. What a node holds is in specs/Node.antt.

ghost use Rattle.std.specs.Prelude.{◌≡◌, ◌↔◌, IfSome};
ghost use Rattle.interval_tree.specs.Node.{HasValue, IsEmpty};

/// The values of an interval of rows: none where it is empty, one for a row alone, and else those of the rows on the
/// left of a row, of those from it on, and of all of them.
#[derive(Drop)]
pub enum Node<V> {
    NoRows,
    Row(V),
    Rows(Box<Node<V>>, u32, V, Box<Node<V>>),
}

impl<V> Node<V> {
    /// The value of all rows of the node, and none where it has no rows. It takes no memory.
    pub fn value(&self) -> Option<&V>
        ensures none { (result ≡ None) ↔ IsEmpty self.now }
        ensures value { IfSome result (λ value. HasValue self.now value.now) }
    {
        match self {
            Node::NoRows => None,
            Node::Row(value) => Some(value),
            Node::Rows(_, _, value, _) => Some(value),
        }
    }
}
