//! What the lines add that open or close a block, or stand in one of an operator or a building.
ghost use Rattle.std.specs.Prelude.{◌≡◌, ◌≤◌, ◌++◌, ◌∷◌, false, [], length, map, IfOk, OnOk};
ghost use Rattle.px_base.specs.Bounds.{u32_max};
ghost use Rattle.px_script.specs.Faults.{is_bad_table};
ghost use Rattle.px_script.specs.Statements as spec;
ghost use Rattle.px_effects.specs.Common.{AreOfKinds, IsFresh, string_bytes, with_thing, AreInRange, AreReadable, declared_of, leaves, operator_view, in_role, signed_view, text_of};

use crate::declaring::{add_name, declare_names};
use crate::sorts::without_sorts;
use crate::tables::close_table;
use px_base::{NoMemory, Sequence};
use px_lines::SignedAtom;
use px_names::Kind;
use px_so_far::{BlockKind, OpenBlock, OpenOperator, SoFar, Variables};
use px_terms::Schema;
use px_world::Thing;
use std::alloc::Global;

/// A list of an operator.
#[derive(Clone, Copy)]
pub enum Role {
    /// The precondition.
    Pre,
    /// The delete list.
    Delete,
    /// The add list.
    Add,
}

/// The predicates of every building, by number.
const PREDICATES: [&str; 8] = [
    "INROOM", "NEXTTO", "CONNECTS", "OPENED", "CLOSED", "ROOM", "DOOR", "BOX",
];

/// The numbers of their arguments.
const ARITIES: [u8; 8] = [2, 2, 3, 1, 1, 1, 1, 1];

/// The operators of every building, by number.
const OPERATORS: [&str; 7] = [
    "GOTOB", "GOTOD", "OPEN", "CLOSE", "GOTHRU", "PUSHD", "PUSHTHRU",
];

/// Returns the names as texts of their own.
fn owned(alloc: Global, names: &[&str]) -> Result<Vec<String>, NoMemory>
    ensures { IfOk result (λ owned. map string_bytes owned.items ≡ map text_of names.now) }
{
    let mut owned = Vec::new(alloc);
    for name in names {
        owned.push(String::from_str(alloc, name)?)?;
    }
    Ok(owned)
}

/// Opens the block of an operator whose parameters have these names and no sort, and adds its name.
pub fn begin_operator(
    so_far: &mut SoFar,
    line: u32,
    name: &str,
    parameters: &[&str],
) -> Result<(), NoMemory>
    requires fresh { IsFresh Kind.Operator so_far.old.names name.now }
    ensures { OnOk result (declared_of so_far.new
        ≡ leaves line (declared_of so_far.old) (spec.operator name.now (map text_of parameters.now))) }
{
    let alloc = so_far.alloc;
    let sorts = without_sorts(alloc, parameters)?;
    let parameters = owned(alloc, parameters)?;
    add_name(so_far, Kind::Operator, name)?;
    so_far.block = Some(OpenBlock {
        line,
        kind: BlockKind::Operator(OpenOperator {
            parameters,
            sorts,
            pre: Vec::new(alloc),
            delete: Vec::new(alloc),
            add: Vec::new(alloc),
        }),
    });
    Ok(())
}

/// Adds atoms to a list of the open operator.
#[tactic(auto, using(crate::proofs::Facts::map_map))]
pub fn extend_operator(
    so_far: &mut SoFar,
    role: Role,
    atoms: &[SignedAtom<'_>],
) -> Result<(), NoMemory>
    requires readable { AreReadable (declared_of so_far.old) atoms.now }
    ensures { OnOk result (declared_of so_far.new ≡ leaves 0 (declared_of so_far.old) (in_role role (map signed_view atoms.now))) }
{
    let atoms = so_far.atoms(&Variables::Named(&[]), atoms)?;
    if let Some(block) = &mut so_far.block {
        if let BlockKind::Operator(operator) = &mut block.kind {
            match role {
                Role::Pre => operator.pre.extend_from_slice(&atoms)?,
                Role::Delete => operator.delete.extend_from_slice(&atoms)?,
                Role::Add => operator.add.extend_from_slice(&atoms)?,
            }
        }
    }
    Ok(())
}

/// Closes the open block, and adds the operator or the table that it is of.
pub fn close_block(so_far: &mut SoFar) -> Result<(), NoMemory>
    requires range { AreInRange (declared_of so_far.old) }
    requires good { is_bad_table (declared_of so_far.old) spec.end ≡ false }
    ensures { OnOk result (declared_of so_far.new ≡ leaves 0 (declared_of so_far.old) (spec.end)) }
{
    let Some(block) = so_far.block.take() else {
        return Ok(());
    };
    match block.kind {
        BlockKind::Operator(operator) => add_schema(so_far, operator),
        BlockKind::Building => Ok(()),
        BlockKind::Table(table) => close_table(so_far, table),
    }
}

fn add_schema(so_far: &mut SoFar, operator: OpenOperator) -> Result<(), NoMemory>
    requires few { length so_far.old.schemas.items ≤ u32_max }
    requires few_parameters { length operator.parameters.items ≤ u32_max }
    ensures same { OnOk result (so_far.new ≡ record so_far.old { schemas = so_far.new.schemas }) }
    ensures schemas { OnOk result (so_far.new.schemas.items
        ≡ so_far.old.schemas.items ++ (operator_view (length so_far.old.schemas.items) operator).schema ∷ []) }
{
    let op = so_far.schemas.len() as u32;
    so_far.schemas.push(Schema {
        op,
        params: operator.parameters.len() as u32,
        pre: Sequence::from_vec(operator.pre),
        del: Sequence::from_vec(operator.delete),
        add: Sequence::from_vec(operator.add),
        param_sorts: Sequence::from_vec(operator.sorts),
    })?;
    Ok(())
}

/// Opens the building's block, and declares the names that every building gives to its script.
pub fn open_building(so_far: &mut SoFar, line: u32) -> Result<(), NoMemory>
    requires fresh { AreOfKinds (leaves line (declared_of so_far.old) spec.building).names }
    ensures { OnOk result (declared_of so_far.new ≡ leaves line (declared_of so_far.old) (spec.building)) }
{
    declare_names(so_far, Kind::Object, &["ROBOT"])?;
    declare_names(so_far, Kind::Predicate, &PREDICATES)?;
    declare_names(so_far, Kind::Operator, &OPERATORS)?;
    so_far.arities.extend_from_slice(&ARITIES)?;
    so_far.things = Some(Vec::new(so_far.alloc));
    so_far.block = Some(OpenBlock {
        line,
        kind: BlockKind::Building,
    });
    Ok(())
}

/// Adds a room to the building.
pub fn add_room(so_far: &mut SoFar, name: &str) -> Result<(), NoMemory>
    requires fresh { IsFresh Kind.Object so_far.old.names name.now }
    ensures { OnOk result (declared_of so_far.new ≡ leaves 0 (declared_of so_far.old) (spec.room name.now)) }
{
    add_name(so_far, Kind::Object, name)?;
    so_far.rooms.push(String::from_str(so_far.alloc, name)?)?;
    add_thing(so_far, Thing::Room)
}

/// Adds a door between two rooms to the building.
pub fn add_door(
    so_far: &mut SoFar,
    name: &str,
    one: &str,
    other: &str,
    is_open: bool,
) -> Result<(), NoMemory>
    requires fresh { IsFresh Kind.Object so_far.old.names name.now }
    ensures { OnOk result (declared_of so_far.new ≡ leaves 0 (declared_of so_far.old) (spec.door name.now one.now other.now is_open)) }
{
    let a = so_far.object(one);
    let b = so_far.object(other);
    add_name(so_far, Kind::Object, name)?;
    so_far.doors.push(String::from_str(so_far.alloc, name)?)?;
    add_thing(so_far, Thing::Door { a, b, is_open })
}

/// Adds a box in a room to the building.
pub fn add_box(so_far: &mut SoFar, name: &str, room: &str) -> Result<(), NoMemory>
    requires fresh { IsFresh Kind.Object so_far.old.names name.now }
    ensures { OnOk result (declared_of so_far.new ≡ leaves 0 (declared_of so_far.old) (spec.box name.now room.now)) }
{
    let room = so_far.object(room);
    add_name(so_far, Kind::Object, name)?;
    so_far.boxes.push(String::from_str(so_far.alloc, name)?)?;
    add_thing(so_far, Thing::Box { room })
}

/// Puts the building's robot into a room.
pub fn add_robot(so_far: &mut SoFar, room: &str) -> Result<(), NoMemory>
    ensures { OnOk result (declared_of so_far.new ≡ leaves 0 (declared_of so_far.old) (spec.robot room.now)) }
{
    let room = so_far.object(room);
    add_thing(so_far, Thing::Robot { room })
}

fn add_thing(so_far: &mut SoFar, thing: Thing) -> Result<(), NoMemory>
    ensures { OnOk result (declared_of so_far.new ≡ with_thing thing (declared_of so_far.old)) }
{
    if let Some(things) = &mut so_far.things {
        things.push(thing)?;
    }
    Ok(())
}
