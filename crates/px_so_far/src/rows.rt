//! The proofs of a table's row, made of the parts that are written, from the last part to the first.
ghost use Rattle.std.specs.Prelude.{◌≡◌, ◌≤◌, drop, length, map, reverse, take, IfOk, OnOk};
ghost use Rattle.px_terms.specs.Limits.{most_parameters};
ghost use Rattle.px_proof.specs.ProofTerm.{derivation_of};
ghost use Rattle.px_script.specs.Items.{an_axiom};
ghost use Rattle.px_script.specs.Declarations.{atom_of, proofs_read, table_parameters_here, table_variables};
ghost use Rattle.px_script.specs.declared.limits.TheConstants.{LAST_NUMBER as last_number};
ghost use Rattle.px_lines.specs.ItemViews.{part_view};
ghost use Rattle.px_so_far.specs.Common.{argument_view, declared_of, parameters_here, signed_view};
ghost use Rattle.px_so_far.specs.Readable.{HasFewArguments};
ghost use Rattle.px_so_far.specs.Heights.{AreReadableParts, IsReadablePart, with_proof};

use crate::line_variables::Variables;
use crate::so_far::SoFar;
use px_base::{NoMemory, Sequence, push};
use px_lines::{Argument, Part, SignedAtom};
use px_proof::{Leaf, Proof};

/// Takes so many proofs off the end, the last one first.
fn take_last(proofs: &mut Vec<Proof>, count: usize) -> Result<Vec<Proof>, NoMemory>
    ensures taken { IfOk result (λ taken. taken.items ≡ take count (reverse proofs.old.items)) }
    ensures rest { OnOk result (reverse proofs.new.items ≡ drop count (reverse proofs.old.items)) }
{
    let kept = proofs.len().saturating_sub(count);
    let mut taken = proofs.split_off(kept)?;
    taken.reverse();
    Ok(taken)
}

impl SoFar {
    /// Returns the fact that a leaf of the open table's proofs is.
    fn leaf(&self, column: u32, index: u32, atom: &SignedAtom<'_>) -> Leaf
        requires few { length (parameters_here (declared_of self.now)) ≤ most_parameters }
        requires few_parameters { table_parameters_here (declared_of self.now).block ≤ last_number }
        requires size { HasFewArguments atom.now }
        ensures { result ≡ record {
          column = column;
          index = index;
          atom = atom_of (declared_of self.now) (table_variables (declared_of self.now)) (signed_view atom.now);
        } }
    {
        let variables = Variables::OfTable(self.table_parameters());
        Leaf {
            column,
            index,
            atom: self.atom(&variables, atom),
        }
    }

    /// Puts a step of an axiom in the place of the proofs that it takes, which are the last ones.
    fn add_axiom_step(
        &self,
        proofs: &mut Vec<Proof>,
        clause: u32,
        place: u32,
        count: u32,
        terms: &[Argument<'_>],
    ) -> Result<(), NoMemory>
        requires few { length (parameters_here (declared_of self.now)) ≤ most_parameters }
        requires few_parameters { table_parameters_here (declared_of self.now).block ≤ last_number }
        ensures { OnOk result (map derivation_of (reverse proofs.new.items) ≡ with_proof (declared_of self.now)
            (an_axiom clause place count (map argument_view terms.now)) (map derivation_of (reverse proofs.old.items))) }
    {
        let theta = self.table_terms(terms)?;
        let subs = take_last(proofs, count as usize)?;
        let step = Proof::Step {
            clause,
            theta: Sequence::from_vec(theta),
            place,
            subs: Sequence::from_vec(subs),
        };
        push(proofs, step)
    }

    /// Puts the proof that begins with the part in the place of those that it takes, which are the last ones.
    fn add_proof(&self, proofs: &mut Vec<Proof>, part: &Part<'_>) -> Result<(), NoMemory>
        requires readable { IsReadablePart (declared_of self.now) part.now }
        requires few_parameters { table_parameters_here (declared_of self.now).block ≤ last_number }
        ensures { OnOk result (map derivation_of (reverse proofs.new.items)
            ≡ with_proof (declared_of self.now) (part_view part.now) (map derivation_of (reverse proofs.old.items))) }
    {
        match part {
            Part::Fact(column, index, atom) => {
                push(proofs, Proof::Fact(self.leaf(*column, *index, atom)))?
            }
            Part::Ancestor(number) => push(proofs, Proof::Anc(*number))?,
            Part::Axiom(clause, place, count, terms) => {
                self.add_axiom_step(proofs, *clause, *place, *count, terms)?
            }
        }
        Ok(())
    }

    /// Returns the proofs that the parts are, the last one first.
    fn proofs_from_last(&self, parts: &[Part<'_>]) -> Result<Vec<Proof>, NoMemory>
        requires readable { AreReadableParts (declared_of self.now) parts.now }
        requires few_parameters { table_parameters_here (declared_of self.now).block ≤ last_number }
        ensures { IfOk result (λ made. map derivation_of (reverse made.items)
            ≡ proofs_read (declared_of self.now) (map part_view parts.now)) }
    {
        let mut made = Vec::with_capacity(self.alloc, parts.len())?;
        for done in 0..parts.len() {
            self.add_proof(&mut made, &parts[parts.len() - 1 - done])?;
        }
        Ok(made)
    }

    /// Returns the proofs that the parts are, in the order of the line.
    ///
    /// # Errors
    /// `NoMemory` where there is no memory for them.
    pub fn proofs(&self, parts: &[Part<'_>]) -> Result<Vec<Proof>, NoMemory>
        requires readable { AreReadableParts (declared_of self.now) parts.now }
        requires few_parameters { table_parameters_here (declared_of self.now).block ≤ last_number }
        ensures { IfOk result (λ proofs. map derivation_of proofs.items ≡ proofs_read (declared_of self.now) (map part_view parts.now)) }
    {
        let mut proofs = self.proofs_from_last(parts)?;
        proofs.reverse();
        Ok(proofs)
    }
}
