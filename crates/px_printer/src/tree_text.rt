//! The texts of search trees, node by node.
ghost use Rattle.std.specs.Prelude.{◌≡◌, ◌∷◌, [], ◌++◌, All, OnOk, codes, length, map, string_bytes};
ghost use Rattle.std.specs.Fmt.{decimal};
ghost use Rattle.px_names.specs.declared.kind.Kind.TheVariants as kind;
ghost use Rattle.px_printer.specs.Texts.{HasName, IsNamedInstance, after_spaces, instance_text, name_text, text_line};
ghost use Rattle.px_printer.specs.Trees.{IsNamedMove, IsNamedNode, IsNamedOrigin, IsNamedTree, IsPlaceIn, kind_text, move_words, node_line, node_lines, origin_words, table_words, tree_end_line};
ghost use Rattle.px_printer.specs.declared.spelling.Spelling.TheVariants.{InRows};

use crate::shown::ShownInstance;
use crate::spelling::Spelling;
use px_names::{Kind, Names};
use px_terms::OpInst;
use px_tree::{MoveKind, Tree, TreeEnd, TreeMove, TreeNode, TreeOrigin};
use std::alloc::AllocError;
use std::fmt::Write;

/// Appends the line of a tree, then a line for each node, and how the search ended.
pub(crate) fn push_tree(
    text: &mut String,
    name: u32,
    tables: &[u32],
    tree: &Tree,
    names: &Names,
) -> Result<(), AllocError>
    requires name { HasName names.now kind.Result name }
    requires tree { IsNamedTree names.now tables.now tree.now.nodes }
    ensures { OnOk result (string_bytes text.new ≡ string_bytes text.old
        ++ (text_line (codes "tree" ∷ name_text names.now kind.Result name ∷ decimal (length tree.now.nodes) ∷ codes "nodes" ∷ [])
        ++ (node_lines names.now tables.now 0 tree.now.nodes ++ tree_end_line tree.now.end))) }
{
    let (name, count) = (names.text(Kind::Result, name), tree.nodes.len());
    write!(text, "tree {name} {count} nodes\n")?;
    push_nodes(text, tree.nodes.as_slice(), tables, names)?;
    push_end(text, tree.end)
}

/// Appends the line of how the search ended.
fn push_end(text: &mut String, end: TreeEnd) -> Result<(), AllocError>
    ensures { OnOk result (string_bytes text.new ≡ string_bytes text.old ++ tree_end_line end) }
{
    match end {
        TreeEnd::Solved => write!(text, "  solved\n"),
        TreeEnd::Exhausted => write!(text, "  exhausted\n"),
        TreeEnd::More { moves } => write!(text, "  more {moves} moves\n"),
        TreeEnd::ShapeLimit { shapes } => write!(text, "  shapelimit {shapes} shapes\n"),
    }
}

/// Appends a line for each node, numbered from 0.
fn push_nodes(
    text: &mut String,
    nodes: &[TreeNode],
    tables: &[u32],
    names: &Names,
) -> Result<(), AllocError>
    requires { IsNamedTree names.now tables.now nodes.now }
    ensures { OnOk result (string_bytes text.new ≡ string_bytes text.old ++ node_lines names.now tables.now 0 nodes.now) }
{
    for (place, node) in nodes.iter().enumerate() {
        push_node(text, place, node, tables, names)?;
    }
    Ok(())
}

/// Appends the line of a node.
fn push_node(
    text: &mut String,
    place: usize,
    node: &TreeNode,
    tables: &[u32],
    names: &Names,
) -> Result<(), AllocError>
    requires tables { All (HasName names.now kind.Result) tables.now }
    requires node { IsNamedNode names.now tables.now node.now }
    ensures { OnOk result (string_bytes text.new ≡ string_bytes text.old ++ node_line names.now tables.now place node.now) }
{
    write!(text, "  {place}")?;
    push_origin(text, &node.origin, tables, names)?;
    let needs = node.needs;
    write!(text, " needs {needs}\n")
}

/// Appends the words of where a node was found, each after a space.
fn push_origin(
    text: &mut String,
    origin: &Option<TreeOrigin>,
    tables: &[u32],
    names: &Names,
) -> Result<(), AllocError>
    requires tables { All (HasName names.now kind.Result) tables.now }
    requires origin { IsNamedOrigin names.now tables.now origin.now }
    ensures { OnOk result (string_bytes text.new ≡ string_bytes text.old
        ++ after_spaces (origin_words names.now tables.now origin.now)) }
{
    match origin {
        None => Ok(()),
        Some(origin) => {
            let parent = origin.parent;
            write!(text, " from {parent}")?;
            push_move(text, &origin.last, tables, names)
        }
    }
}

/// Appends the words of a move, each after a space.
fn push_move(
    text: &mut String,
    last: &TreeMove,
    tables: &[u32],
    names: &Names,
) -> Result<(), AllocError>
    requires tables { All (HasName names.now kind.Result) tables.now }
    requires move_named { IsNamedMove names.now tables.now last.now }
    ensures { OnOk result (string_bytes text.new ≡ string_bytes text.old
        ++ after_spaces (move_words names.now tables.now last.now)) }
{
    let kind = word_of(last.kind);
    write!(text, " {kind}")?;
    push_table_name(text, last.table, tables, names)?;
    push_steps(text, last.steps.as_slice(), names)
}

/// Returns the word for what a move does.
fn word_of(kind: MoveKind) -> &'static str
    ensures { result.now ≡ kind_text kind }
{
    match kind {
        MoveKind::Push => "push",
        MoveKind::Apply => "apply",
    }
}

/// Appends the name of the table at a place, if there is one, after a space.
fn push_table_name(
    text: &mut String,
    table: Option<u32>,
    tables: &[u32],
    names: &Names,
) -> Result<(), AllocError>
    requires tables { All (HasName names.now kind.Result) tables.now }
    requires table { IsPlaceIn tables.now table }
    ensures { OnOk result (string_bytes text.new ≡ string_bytes text.old
        ++ after_spaces (table_words names.now tables.now table)) }
{
    match table {
        None => Ok(()),
        Some(place) => {
            let name = names.text(Kind::Result, tables[place as usize]);
            write!(text, " {name}")
        }
    }
}

/// Appends the steps, each after a space.
fn push_steps(text: &mut String, steps: &[OpInst], names: &Names) -> Result<(), AllocError>
    requires { All (IsNamedInstance names.now) steps.now }
    ensures { OnOk result (string_bytes text.new ≡ string_bytes text.old
        ++ after_spaces (map (instance_text names.now (InRows 0)) steps.now)) }
{
    for inst in steps {
        let inst = ShownInstance {
            inst,
            names,
            spelling: Spelling::InRows(0),
        };
        write!(text, " {inst}")?;
    }
    Ok(())
}
