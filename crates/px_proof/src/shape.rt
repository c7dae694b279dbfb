//! Shapes: the choices of a proof without its terms.
ghost use Rattle.std.specs.Prelude.{◌≡◌, IfOk};

use px_base::{NoMemory, Sequence};
use std::marker::Model;

/// How a place of an unfinished proof is closed, or that it is open.
#[derive(Clone, Copy, PartialEq, Eq, Debug)]
pub enum Tick {
    /// By the fact of that index.
    Fact(u32),
    /// By the ancestor of that number, counted from the nearest.
    Anc(u32),
    /// By the clause of that number at that place.
    Step(u32, u32),
    /// By a gap.
    Gap,
    /// Not yet.
    Open,
}

/// The choices of a proof without its terms: the ticks of its places in preorder.
#[derive(Drop)]
pub struct Shape {
    ticks: Sequence<Tick>,
}

impl Model for Shape {
    ghost use Rattle.std.specs.Prelude.{List};
    ghost use Rattle.px_proof.specs.declared.shape.Tick.{Tick};

    ghost Value = { List Tick };

    ghost view = { λ s. s.ticks };
}

impl Shape {
    /// Returns the shape with these ticks. Does not allocate.
    pub fn from_ticks(ticks: Vec<Tick>) -> Shape
        ensures { result ≡ ticks.items }
    {
        Shape {
            ticks: Sequence::from_vec(ticks),
        }
    }

    /// Returns the ticks in preorder.
    pub fn ticks(&self) -> &[Tick]
        ensures { result.now ≡ self.now }
    {
        self.ticks.as_slice()
    }

    /// Returns the ticks in preorder. Does not allocate.
    pub fn into_ticks(self) -> Vec<Tick>
        ensures { result.items ≡ self }
    {
        let Shape { ticks } = self;
        ticks.into_vec()
    }

    /// Returns an equal shape, in memory of the same allocator.
    ///
    /// # Errors
    /// `NoMemory` where there is no memory for the copy.
    pub fn try_copy(&self) -> Result<Shape, NoMemory>
        ensures { IfOk result (λ copy. copy ≡ self.now) }
    {
        let ticks = self.ticks.try_copy()?;
        Ok(Shape { ticks })
    }
}
