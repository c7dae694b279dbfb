//! Parts of tables, and the table of the example of 1972.
use crate::doors::{ROBOT, connects, is_box, is_in};
use crate::parts::{instance, v};
use px_base::Sequence;
use px_proof::{Leaf, Proof};
use px_table::{Mark, Row, Table};
use px_terms::{Atom, Term};
use std::alloc::Global;

/// Returns the atom as it is given at first or, where the column isn't 0, as the add of that index of that step.
pub fn fact(column: u32, index: u32, atom: Atom) -> Proof {
    Proof::Fact(Leaf {
        column,
        index,
        atom,
    })
}

/// Returns the mark of such an atom in that row.
pub fn mark(row: u32, column: u32, index: u32, atom: Atom) -> Mark {
    Mark {
        atom,
        row,
        column,
        index,
    }
}

/// Returns the row of these proofs.
pub fn row<const N: usize>(alloc: Global, proofs: [Proof; N]) -> Option<Row> {
    Some(Row::from_proofs(Vec::from_array(alloc, proofs).ok()?))
}

/// The room where the robot is, the door through which it goes and the room to which, the box, the door through which it is pushed
/// and the room to which.
#[derive(Clone, Copy)]
pub struct RoomScene {
    /// The robot's room at first.
    pub here: Term,
    /// The door from there.
    pub door: Term,
    /// The box's room at first.
    pub there: Term,
    /// The box.
    pub cargo: Term,
    /// The door through which it is pushed.
    pub back: Term,
    /// Its room at last.
    pub end: Term,
}

/// Returns R1, D1, R2, B1, and back by D1 to R1.
pub fn objects() -> RoomScene {
    RoomScene {
        here: Term::Obj(1),
        door: Term::Obj(4),
        there: Term::Obj(2),
        cargo: Term::Obj(6),
        back: Term::Obj(4),
        end: Term::Obj(1),
    }
}

/// Returns the parameters p1 to p6.
pub fn parameters() -> RoomScene {
    RoomScene {
        here: Term::Var(0),
        door: Term::Var(1),
        there: Term::Var(2),
        cargo: Term::Var(3),
        back: Term::Var(4),
        end: Term::Var(5),
    }
}

/// Returns the proof that the second door leads from where the box is, by the axiom from its leading there.
fn the_other_way(alloc: Global, scene: RoomScene) -> Option<Proof> {
    let there = connects(scene.back, scene.end, scene.there);
    let theta = [scene.back, scene.end, scene.there];
    Some(Proof::Step {
        clause: 0,
        theta: Sequence::from_slice(alloc, &theta).ok()?,
        place: 1,
        subs: Sequence::from_vec(Vec::from_array(alloc, [fact(0, 0, there)]).ok()?),
    })
}

fn moving_rows(alloc: Global, scene: RoomScene) -> Option<Sequence<Row>> {
    let robot_at_first = fact(0, 0, is_in(ROBOT, scene.here));
    let door = fact(0, 0, connects(scene.door, scene.here, scene.there));
    let box_at_first = fact(0, 0, is_in(scene.cargo, scene.there));
    let robot_there = fact(1, 0, is_in(ROBOT, scene.there));
    let back = the_other_way(alloc, scene)?;
    let a_box = fact(0, 0, is_box(scene.cargo));
    let box_there = fact(2, 1, is_in(scene.cargo, scene.end));
    let rows = [
        row(alloc, [robot_at_first, door])?,
        row(alloc, [box_at_first, robot_there, back])?,
        row(alloc, [a_box, box_there])?,
    ];
    Some(Sequence::from_vec(Vec::from_array(alloc, rows).ok()?))
}

fn moving_marks(scene: RoomScene) -> [Mark; 7] {
    [
        mark(1, 0, 0, is_in(ROBOT, scene.here)),
        mark(1, 0, 0, connects(scene.door, scene.here, scene.there)),
        mark(2, 0, 0, is_in(scene.cargo, scene.there)),
        mark(2, 1, 0, is_in(ROBOT, scene.there)),
        mark(2, 0, 0, connects(scene.back, scene.end, scene.there)),
        mark(3, 0, 0, is_box(scene.cargo)),
        mark(3, 2, 1, is_in(scene.cargo, scene.end)),
    ]
}

/// Returns the table of that many parameters that goes through the scene's door and pushes the box through its door back, so that some box
/// is there.
pub fn moving(alloc: Global, params: u32, scene: RoomScene) -> Option<Table> {
    let steps = [
        instance(0, &[scene.door, scene.here, scene.there]),
        instance(1, &[scene.cargo, scene.back, scene.there, scene.end]),
    ];
    let some = v(params);
    let goal = [is_box(some), is_in(some, scene.end)];
    let table = Table::without_sorts(
        alloc,
        params,
        Sequence::from_slice(alloc, &steps).ok()?,
        Sequence::from_slice(alloc, &goal).ok()?,
        1,
        Sequence::from_slice(alloc, &moving_marks(scene)).ok()?,
        moving_rows(alloc, scene)?,
    );
    table.ok()
}
