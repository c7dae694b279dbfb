//! The text of the block that a saved table is, line by line.
ghost use Rattle.std.specs.Prelude.{◌≡◌, ◌∷◌, [], ◌++◌, All, List, OnOk, codes, length, map, string_bytes};
ghost use Rattle.std.specs.Fmt.{decimal};
ghost use Rattle.std.specs.List.{flat_map};
ghost use Rattle.px_proof.specs.declared.proof.Proof.{Proof};
ghost use Rattle.px_proof.specs.Derivation.{derivations};
ghost use Rattle.px_proof.specs.ProofTerm.{derivation_of};
ghost use Rattle.px_table.specs.Tables.{rows_of};
ghost use Rattle.px_printer.specs.Blocks.{AreNamedProofs, IsNamedBlock, IsNamedProof, all_proof_words, block_text, line_after, lines_inside, proof_line, proof_words, step_line, terms_text};
ghost use Rattle.px_printer.specs.Texts.{IsNamedAtom, IsNamedInstance, IsNamedTerm, after_spaces, atom_text, text_line};

use crate::shown::{ShownAtom, ShownInstance, ShownTerms};
use crate::spelling::Spelling;
use crate::table_text::push_after_spaces;
use px_names::Names;
use px_proof::{Leaf, Proof};
use px_table::{Row, Table};
use px_terms::{Atom, OpInst, Term};
use std::alloc::AllocError;
use std::fmt::Write;

/// Appends the block of a table.
pub(crate) fn push_block(
    text: &mut String,
    name: &str,
    table: &Table,
    names: &Names,
) -> Result<(), AllocError>
    requires { IsNamedBlock names.now table.now }
    ensures { OnOk result (string_bytes text.new ≡ string_bytes text.old
        ++ block_text names.now name.now table.now.params table.now.steps table.now.goal (rows_of table.now.proofs)) }
{
    let params = table.params;
    write!(text, "table {name} {params}\n")?;
    push_inside(text, table, Spelling::InBlock(params), names)?;
    write!(text, "end\n")
}

/// Appends the lines between the first and the last.
fn push_inside(
    text: &mut String,
    table: &Table,
    spelling: Spelling,
    names: &Names,
) -> Result<(), AllocError>
    requires { IsNamedBlock names.now table.now }
    ensures { OnOk result (string_bytes text.new ≡ string_bytes text.old
        ++ lines_inside names.now spelling table.now.steps table.now.goal (rows_of table.now.proofs)) }
{
    push_step_lines(text, table.steps.as_slice(), spelling, names)?;
    push_goal(text, table.goal.as_slice(), spelling, names)?;
    push_rows(text, table.proofs.as_slice(), spelling, names)
}

/// Appends a line for each step.
fn push_step_lines(
    text: &mut String,
    steps: &[OpInst],
    spelling: Spelling,
    names: &Names,
) -> Result<(), AllocError>
    requires { All (IsNamedInstance names.now) steps.now }
    ensures { OnOk result (string_bytes text.new ≡ string_bytes text.old ++ flat_map (step_line names.now spelling) steps.now) }
{
    for inst in steps {
        let inst = ShownInstance {
            inst,
            names,
            spelling,
        };
        write!(text, "step {inst}\n")?;
    }
    Ok(())
}

/// Appends the line of the goal.
fn push_goal(
    text: &mut String,
    goal: &[Atom],
    spelling: Spelling,
    names: &Names,
) -> Result<(), AllocError>
    requires { All (IsNamedAtom names.now) goal.now }
    ensures { OnOk result (string_bytes text.new ≡ string_bytes text.old
        ++ line_after (codes "goal") (map (atom_text names.now spelling) goal.now)) }
{
    write!(text, "goal")?;
    push_after_spaces(text, goal, spelling, names)?;
    write!(text, "\n")
}

/// Appends a line for each row.
fn push_rows(
    text: &mut String,
    rows: &[Row],
    spelling: Spelling,
    names: &Names,
) -> Result<(), AllocError>
    requires { All (λ (row : List Proof). AreNamedProofs names.now (derivations (map derivation_of row))) rows.now }
    ensures { OnOk result (string_bytes text.new ≡ string_bytes text.old ++ flat_map (proof_line names.now spelling) (rows_of rows.now)) }
{
    for row in rows {
        push_row(text, row, spelling, names)?;
    }
    Ok(())
}

/// Appends the line of a row.
fn push_row(
    text: &mut String,
    row: &Row,
    spelling: Spelling,
    names: &Names,
) -> Result<(), AllocError>
    requires { AreNamedProofs names.now (derivations (map derivation_of row.now)) }
    ensures { OnOk result (string_bytes text.new ≡ string_bytes text.old ++ proof_line names.now spelling (map derivation_of row.now)) }
{
    write!(text, "proof")?;
    push_proofs(text, row.proofs(), spelling, names)?;
    write!(text, "\n")
}

/// Appends the words of each of the proofs, each word after a space.
#[cycle(words)]
fn push_proofs(
    text: &mut String,
    proofs: &[Proof],
    spelling: Spelling,
    names: &Names,
) -> Result<(), AllocError>
    requires { AreNamedProofs names.now (derivations (map derivation_of proofs.now)) }
    ensures { OnOk result (string_bytes text.new ≡ string_bytes text.old
        ++ after_spaces (all_proof_words names.now spelling (derivations (map derivation_of proofs.now)))) }
{
    for proof in proofs {
        push_proof(text, proof, spelling, names)?;
    }
    Ok(())
}

/// Appends the words of a proof, each after a space.
#[cycle(words)]
fn push_proof(
    text: &mut String,
    proof: &Proof,
    spelling: Spelling,
    names: &Names,
) -> Result<(), AllocError>
    requires { IsNamedProof names.now (derivation_of proof.now) }
    ensures { OnOk result (string_bytes text.new ≡ string_bytes text.old
        ++ after_spaces (proof_words names.now spelling (derivation_of proof.now))) }
{
    match proof {
        Proof::Fact(leaf) => push_leaf(text, leaf, spelling, names),
        Proof::Anc(place) => write!(text, " a {place}"),
        Proof::Step {
            clause,
            theta,
            place,
            subs,
        } => {
            let subs = subs.as_slice();
            push_step(
                text,
                *clause,
                *place,
                subs.len(),
                theta.as_slice(),
                spelling,
                names,
            )?;
            push_proofs(text, subs, spelling, names)
        }
        Proof::Gap(_) => Ok(()),
    }
}

/// Appends the words of a fact.
fn push_leaf(
    text: &mut String,
    leaf: &Leaf,
    spelling: Spelling,
    names: &Names,
) -> Result<(), AllocError>
    requires { IsNamedAtom names.now leaf.now.atom }
    ensures { OnOk result (string_bytes text.new ≡ string_bytes text.old
        ++ after_spaces (codes "f" ∷ decimal leaf.now.column ∷ decimal leaf.now.index ∷ atom_text names.now spelling leaf.now.atom ∷ [])) }
{
    let (column, index) = (leaf.column, leaf.index);
    let atom = ShownAtom {
        atom: &leaf.atom,
        names,
        spelling,
    };
    write!(text, " f {column} {index} {atom}")
}

/// Appends the words of a step but for its parts: the number of the axiom, the place, the number of parts, and the terms.
fn push_step(
    text: &mut String,
    clause: u32,
    place: u32,
    count: usize,
    theta: &[Term],
    spelling: Spelling,
    names: &Names,
) -> Result<(), AllocError>
    requires { All (IsNamedTerm names.now) theta.now }
    ensures { OnOk result (string_bytes text.new ≡ string_bytes text.old
        ++ after_spaces (codes "s" ∷ decimal clause ∷ decimal place ∷ decimal count ∷ terms_text names.now spelling theta.now ∷ [])) }
{
    let terms = ShownTerms {
        terms: theta,
        names,
        spelling,
    };
    write!(text, " s {clause} {place} {count} {terms}")
}
