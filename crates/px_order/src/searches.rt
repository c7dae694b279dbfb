//! What the laws know of a search.
ghost use Rattle.px_order.specs.Spaces.{Space};
ghost use Rattle.px_order.specs.Ends.{Aim};

/// A search, as the laws see it: a type that stands for what is searched. It has no calls, and only the laws use it.
pub trait Search {
    /// What is reached.
    type Node;

    /// What leads from one node to another.
    type Move;

    /// What may be asked at a node.
    type Question;

    /// The nodes, and the moves between them.
    ghost space: { Space Self.Node Self.Move };

    /// What is to be reached, and what is asked.
    ghost aim: { Aim Self.Node Self.Question };
}
