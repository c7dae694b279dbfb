//! Worlds to which room can be added.
ghost use Rattle.std.specs.Prelude.{◌≡◌, ◌↔◌, ◌≤◌, length, IsOk, OnOk, OnErr};

use crate::world::World;
use px_terms::NoMemory;

/// A world to which room can be added between two runs, and whose true atoms can be counted.
pub trait Regrow: World {
    /// Makes room for at least `spare` further atoms. What is true stays.
    ///
    /// # Errors
    /// `NoMemory` where there isn't that much room and no memory for it. The world is then as it was.
    fn regrow(&mut self, spare: usize) -> Result<(), NoMemory>
        ensures spare { OnOk result (spare ≤ Self.spare self.new) }
        ensures room { spare ≤ Self.spare self.old → IsOk result }
        ensures kept { OnErr result (self.new ≡ self.old) }
        ensures atoms { Self.atoms self.new ≡ Self.atoms self.old }
        ensures rules { Self.rules self.new ≡ Self.rules self.old }
        ensures admitted { (edit : Self.Edit) → Self.admits self.new edit ↔ Self.admits self.old edit };

    /// Returns the number of true atoms. Does not allocate.
    fn atom_count(&self) -> usize
        ensures { result ≡ length (Self.atoms self.now) };
}
