//! The text of a certificate.
ghost use Rattle.std.specs.Prelude.{◌≡◌, ◌++◌, ◌∷◌, [], ℕ, List, IfOk, OnOk, codes, length, map, string_bytes};
ghost use Rattle.std.specs.List.{flat_map};
ghost use Rattle.px_proof.specs.Derivation.{derivations};
ghost use Rattle.px_proof.specs.ProofTerm.{derivation_of};
ghost use Rattle.px_table.specs.Tables.{IsTable};
ghost use Rattle.px_cert.specs.ClaimRanges.{certified};
ghost use Rattle.px_cert.specs.Certificates.{IsCertifiable, IsCertificate, certificate_text, certified_claim, problem_lines, schema_lines, table_lines};
ghost use Rattle.px_cert.specs.Lines.{action, add, atom_item, axioms, clause, delete, derivation_items, goal, heading, line_bytes, line_of_items, list_item, literal_item, number_item, objects, operator, operators, pre, predicates, proof_item, row, sign_item, steps, table, term_item};

use px_base::NoMemory;
use px_proof::Proof;
use px_table::{Row, Table};
use px_terms::{Atom, Clause, ClauseArena, Lit, OpInst, Problem, Schema, Term};
use std::alloc::{AllocError, Global};
use std::fmt::Write;

/// Returns the text of the claim that this is a table for the problem. Any table has a text; that of one that may be certified is a
/// certificate, which `read_cert` reads back and `verify` accepts.
///
/// # Errors
/// `NoMemory` where there is no memory for the text.
pub fn cert_text(alloc: Global, problem: &Problem, table: &Table) -> Result<Vec<u8>, NoMemory>
    ensures text { IfOk result (λ text. text.items ≡ certificate_text problem.now table.now) }
    ensures accepted { IsCertifiable problem.now table.now → IfOk result (λ text.
        IsCertificate text.items (certified_claim problem.now table.now) × IsTable (certified problem.now) table.now) }
{
    let mut text = String::new(alloc);
    push_problem(&mut text, problem)?;
    push_table(&mut text, table)?;
    Ok(text.into_bytes())
}

/// Appends the lines of the problem.
fn push_problem(text: &mut String, problem: &Problem) -> Result<(), AllocError>
    ensures { OnOk result (string_bytes text.new ≡ string_bytes text.old ++ flat_map line_bytes (problem_lines problem.now)) }
{
    text.push_str("planex certificate 1\n")?;
    push_numbers(text, "objects", problem.object_sorts.as_slice())?;
    push_arities(text, problem.arities.as_slice())?;
    push_axioms(text, &problem.axioms)?;
    push_operators(text, problem.schemas.as_slice())
}

/// Appends the lines of the table.
fn push_table(text: &mut String, table: &Table) -> Result<(), AllocError>
    ensures { OnOk result (string_bytes text.new ≡ string_bytes text.old ++ flat_map line_bytes (table_lines table.now)) }
{
    push_numbers(text, "table", table.param_sorts.as_slice())?;
    push_goal(text, table.goal_variable_count, table.goal.as_slice())?;
    push_steps(text, table.steps.as_slice())?;
    push_rows(text, table.proofs.as_slice())
}

/// Appends a number, after a space.
fn push_number(text: &mut String, number: usize) -> Result<(), AllocError>
    ensures { OnOk result (string_bytes text.new ≡ string_bytes text.old ++ number_item number) }
{
    write!(text, " {number}")
}

/// Appends a line of this word and these numbers.
fn push_numbers(text: &mut String, word: &str, numbers: &[u32]) -> Result<(), AllocError>
    ensures { OnOk result (string_bytes text.new ≡ string_bytes text.old
        ++ line_of_items word.now (list_item number_item numbers.now)) }
{
    text.push_str(word)?;
    push_number(text, numbers.len())?;
    for number in numbers {
        push_number(text, *number as usize)?;
    }
    text.push_str("\n")
}

/// Appends the line of the predicates.
fn push_arities(text: &mut String, arities: &[u8]) -> Result<(), AllocError>
    ensures { OnOk result (string_bytes text.new ≡ string_bytes text.old ++ line_bytes (predicates arities.now)) }
{
    text.push_str("predicates")?;
    push_number(text, arities.len())?;
    for arity in arities {
        push_number(text, usize::from(*arity))?;
    }
    text.push_str("\n")
}

/// Appends a line of this word and a number.
fn push_count(text: &mut String, word: &str, count: usize) -> Result<(), AllocError>
    ensures { OnOk result (string_bytes text.new ≡ string_bytes text.old ++ line_of_items word.now (number_item count)) }
{
    write!(text, "{word} {count}\n")
}

/// Appends a term, after a space.
fn push_term(text: &mut String, term: Term) -> Result<(), AllocError>
    ensures { OnOk result (string_bytes text.new ≡ string_bytes text.old ++ term_item term) }
{
    match term {
        Term::Obj(number) => write!(text, " o{number}"),
        Term::Var(number) => write!(text, " v{number}"),
        Term::Any => text.push_str(" $"),
    }
}

/// Appends terms, each after a space.
fn push_terms(text: &mut String, terms: &[Term]) -> Result<(), AllocError>
    ensures { OnOk result (string_bytes text.new ≡ string_bytes text.old ++ flat_map term_item terms.now) }
{
    for term in terms {
        push_term(text, *term)?;
    }
    Ok(())
}

/// Appends an atom, each of its words after a space.
fn push_atom(text: &mut String, atom: &Atom) -> Result<(), AllocError>
    ensures { OnOk result (string_bytes text.new ≡ string_bytes text.old ++ atom_item atom.now) }
{
    push_number(text, atom.pred() as usize)?;
    push_terms(text, atom.args())
}

/// Appends the length of a list and its atoms.
fn push_atoms(text: &mut String, atoms: &[Atom]) -> Result<(), AllocError>
    ensures { OnOk result (string_bytes text.new ≡ string_bytes text.old ++ list_item atom_item atoms.now) }
{
    push_number(text, atoms.len())?;
    for atom in atoms {
        push_atom(text, atom)?;
    }
    Ok(())
}

/// Appends a line of this word and these atoms.
fn push_atoms_line(text: &mut String, word: &str, atoms: &[Atom]) -> Result<(), AllocError>
    ensures { OnOk result (string_bytes text.new ≡ string_bytes text.old ++ line_of_items word.now (list_item atom_item atoms.now)) }
{
    text.push_str(word)?;
    push_atoms(text, atoms)?;
    text.push_str("\n")
}

/// Appends a literal.
fn push_literal(text: &mut String, lit: &Lit) -> Result<(), AllocError>
    ensures { OnOk result (string_bytes text.new ≡ string_bytes text.old ++ literal_item lit.now) }
{
    text.push_str(if lit.positive { " 1" } else { " 0" })?;
    push_atom(text, &lit.atom)
}

/// Appends the length of a list and its literals.
fn push_literals(text: &mut String, lits: &[Lit]) -> Result<(), AllocError>
    ensures { OnOk result (string_bytes text.new ≡ string_bytes text.old ++ list_item literal_item lits.now) }
{
    push_number(text, lits.len())?;
    for lit in lits {
        push_literal(text, lit)?;
    }
    Ok(())
}

/// Appends the line of an axiom.
fn push_axiom(text: &mut String, variable_count: u32, lits: &[Lit]) -> Result<(), AllocError>
    ensures { OnOk result (string_bytes text.new ≡ string_bytes text.old
        ++ line_bytes (clause (record { variable_count = variable_count; lits = lits.now }))) }
{
    write!(text, "axiom {variable_count}")?;
    push_literals(text, lits)?;
    text.push_str("\n")
}

/// Appends the lines of the axioms.
fn push_axioms(text: &mut String, arena: &ClauseArena) -> Result<(), AllocError>
    ensures { OnOk result (string_bytes text.new ≡ string_bytes text.old
        ++ (line_bytes (axioms (length arena.now)) ++ flat_map (λ c. line_bytes (clause c)) arena.now)) }
{
    push_count(text, "axioms", arena.count() as usize)?;
    for number in 0..arena.count() {
        push_axiom(text, arena.variable_count(number), arena.lits(number))?;
    }
    Ok(())
}

/// Appends the four lines of an operator.
fn push_operator(text: &mut String, schema: &Schema) -> Result<(), AllocError>
    ensures { OnOk result (string_bytes text.new ≡ string_bytes text.old ++ flat_map line_bytes (schema_lines schema.now)) }
{
    push_numbers(text, "operator", schema.param_sorts.as_slice())?;
    push_atoms_line(text, "pre", schema.pre.as_slice())?;
    push_atoms_line(text, "delete", schema.del.as_slice())?;
    push_atoms_line(text, "add", schema.add.as_slice())
}

/// Appends the lines of the operators.
fn push_operators(text: &mut String, schemas: &[Schema]) -> Result<(), AllocError>
    ensures { OnOk result (string_bytes text.new ≡ string_bytes text.old
        ++ (line_bytes (operators (length schemas.now)) ++ flat_map (λ schema. flat_map line_bytes (schema_lines schema)) schemas.now)) }
{
    push_count(text, "operators", schemas.len())?;
    for schema in schemas {
        push_operator(text, schema)?;
    }
    Ok(())
}

/// Appends the line of the goal.
fn push_goal(text: &mut String, variable_count: u32, atoms: &[Atom]) -> Result<(), AllocError>
    ensures { OnOk result (string_bytes text.new ≡ string_bytes text.old ++ line_bytes (goal variable_count atoms.now)) }
{
    write!(text, "goal {variable_count}")?;
    push_atoms(text, atoms)?;
    text.push_str("\n")
}

/// Appends the line of a step.
fn push_step(text: &mut String, inst: &OpInst) -> Result<(), AllocError>
    ensures { OnOk result (string_bytes text.new ≡ string_bytes text.old ++ line_bytes (action inst.now)) }
{
    text.push_str("step")?;
    push_number(text, inst.op() as usize)?;
    push_terms(text, inst.args())?;
    text.push_str("\n")
}

/// Appends the lines of the steps.
fn push_steps(text: &mut String, insts: &[OpInst]) -> Result<(), AllocError>
    ensures { OnOk result (string_bytes text.new ≡ string_bytes text.old
        ++ (line_bytes (steps (length insts.now)) ++ flat_map (λ inst. line_bytes (action inst)) insts.now)) }
{
    push_count(text, "steps", insts.len())?;
    for inst in insts {
        push_step(text, inst)?;
    }
    Ok(())
}

/// Appends a proof. A gap, which no table has, is written as nothing.
#[cycle(pushes)]
fn push_proof(text: &mut String, proof: &Proof) -> Result<(), AllocError>
    ensures { OnOk result (string_bytes text.new ≡ string_bytes text.old ++ proof_item proof.now) }
{
    match proof {
        Proof::Fact(leaf) => {
            text.push_str(" f")?;
            push_number(text, leaf.column as usize)?;
            push_number(text, leaf.index as usize)?;
            push_atom(text, &leaf.atom)
        }
        Proof::Anc(place) => write!(text, " a {place}"),
        Proof::Step {
            clause,
            theta,
            place,
            subs,
        } => {
            write!(text, " s {clause} {place}")?;
            push_terms(text, theta.as_slice())?;
            push_proofs(text, subs.as_slice())
        }
        Proof::Gap(_) => Ok(()),
    }
}

/// Appends proofs.
#[cycle(pushes)]
fn push_proofs(text: &mut String, proofs: &[Proof]) -> Result<(), AllocError>
    ensures { OnOk result (string_bytes text.new ≡ string_bytes text.old
        ++ derivation_items (derivations (map derivation_of proofs.now))) }
{
    for proof in proofs {
        push_proof(text, proof)?;
    }
    Ok(())
}

/// Appends the line of a row.
fn push_row(text: &mut String, proofs: &[Proof]) -> Result<(), AllocError>
    ensures { OnOk result (string_bytes text.new ≡ string_bytes text.old ++ line_bytes (row proofs.now)) }
{
    text.push_str("row")?;
    push_number(text, proofs.len())?;
    push_proofs(text, proofs)?;
    text.push_str("\n")
}

/// Appends the lines of the rows.
fn push_rows(text: &mut String, rows: &[Row]) -> Result<(), AllocError>
    ensures { OnOk result (string_bytes text.new ≡ string_bytes text.old ++ flat_map (λ proofs. line_bytes (row proofs)) rows.now) }
{
    for row in rows {
        push_row(text, row.proofs())?;
    }
    Ok(())
}
