//! Terms, atoms and edits by numbers.
ghost use Rattle.std.specs.Prelude.{◌≡◌, ◌≤◌, length, map, nat_lt, fold, IfOk, OnOk};
ghost use Rattle.px_terms.specs.Limits.{most_formula_variables, most_parameters};
ghost use Rattle.px_script.specs.Declarations.{table_parameters_here, table_term, table_variables};
ghost use Rattle.px_script.specs.declared.limits.TheConstants.{LAST_NUMBER as last_number};
ghost use Rattle.px_so_far.specs.Readable.{HasFewArguments};
ghost use Rattle.px_so_far.specs.LineVariables.{AreFew, variables_view};
ghost use Rattle.px_so_far.specs.Common.{parameters_here, term_of, atom_of, literal_of, atom_edit_of, room_edit_of, binding_of, variable_names_of, AreReadable, with_variable, declared_of, argument_view, signed_view, room_edit_view, binding_view, text_of};

use crate::line_variables::{Variables, is_one_of};
use crate::so_far::SoFar;
use px_base::NoMemory;
use px_lines::{Argument, SignedAtom, WrittenBinding, WrittenRoomEdit};
use px_names::Kind;
use px_script::{Binding, Sign};
use px_terms::{Atom, Lit, MOST_ARGUMENTS, MOST_FORMULA_VARIABLES, Term};
use px_world::{AtomEdit, RoomEdit};
use std::alloc::Global;

/// Appends the argument's variable, if it is one that isn't in the list yet.
fn add_variable<'a>(variables: &mut Vec<&'a str>, argument: &Argument<'a>) -> Result<(), NoMemory>
    ensures { OnOk result (map text_of variables.new.items
        ≡ with_variable (map text_of variables.old.items) (argument_view argument.now)) }
{
    let Argument::Variable(name) = argument else {
        return Ok(());
    };
    if is_one_of(variables, name) {
        return Ok(());
    }
    variables.push(*name)?;
    Ok(())
}

fn add_variables<'a>(
    variables: &mut Vec<&'a str>,
    arguments: &[Argument<'a>],
) -> Result<(), NoMemory>
    ensures { OnOk result (map text_of variables.new.items
        ≡ fold with_variable (map text_of variables.old.items) (map argument_view arguments.now)) }
{
    for argument in arguments {
        add_variable(variables, argument)?;
    }
    Ok(())
}

/// Returns the different variables of the atoms, by first occurrence.
///
/// # Errors
/// `NoMemory` where there is no memory for them.
pub fn variables<'a>(alloc: Global, atoms: &[SignedAtom<'a>]) -> Result<Vec<&'a str>, NoMemory>
    ensures names { IfOk result (λ found. map text_of found.items ≡ variable_names_of (map signed_view atoms.now)) }
    ensures count { IfOk result (λ found. length found.items ≡ length (variable_names_of (map signed_view atoms.now))) }
{
    let mut variables = Vec::new(alloc);
    for atom in atoms {
        add_variables(&mut variables, &atom.arguments)?;
    }
    Ok(variables)
}

/// Returns whether the atoms have more than [`MOST_FORMULA_VARIABLES`] different variables. Stops at the atom with which there are more, so
/// that it takes little memory where each atom has few arguments.
///
/// # Errors
/// `NoMemory` where there is no memory for the variables.
#[tactic(auto, using(crate::proofs::VariableNames::seen))]
pub fn has_many_variables(alloc: Global, atoms: &[SignedAtom<'_>]) -> Result<bool, NoMemory>
    ensures { IfOk result (λ many. many ≡ nat_lt most_formula_variables (length (variable_names_of (map signed_view atoms.now)))) }
{
    let mut variables = Vec::new(alloc);
    for atom in atoms {
        if variables.len() > MOST_FORMULA_VARIABLES {
            return Ok(true);
        }
        add_variables(&mut variables, &atom.arguments)?;
    }
    Ok(variables.len() > MOST_FORMULA_VARIABLES)
}

impl SoFar {
    fn term(&self, variables: &Variables<'_, '_>, argument: &Argument<'_>) -> Term
        requires few { length (parameters_here (declared_of self.now)) ≤ most_parameters }
        requires few_variables { AreFew variables.now }
        ensures { result ≡ term_of (parameters_here (declared_of self.now))
            (variables_view variables.now) self.now.names.objects (argument_view argument.now) }
    {
        match argument {
            Argument::Named(name) => match self.parameter(name) {
                Some(number) => Term::Var(number as u32),
                None => Term::Obj(self.object(name)),
            },
            Argument::Variable(name) => Term::Var(variables.number(name)),
            Argument::Anything => Term::Any,
        }
    }

    /// Returns an atom by numbers, with these variables: of a name that isn't declared, and a variable that is none of these, the number 0.
    pub fn atom(&self, variables: &Variables<'_, '_>, atom: &SignedAtom<'_>) -> Atom
        requires few { length (parameters_here (declared_of self.now)) ≤ most_parameters }
        requires few_variables { AreFew variables.now }
        requires size { HasFewArguments atom.now }
        ensures { result ≡ atom_of (declared_of self.now) (variables_view variables.now) (signed_view atom.now) }
    {
        let predicate = self.number(Kind::Predicate, atom.predicate);
        let mut terms = [Term::Any; MOST_ARGUMENTS];
        for (index, argument) in atom.arguments.iter().enumerate() {
            terms[index] = self.term(variables, argument);
        }
        Atom::new(predicate, &terms[..atom.arguments.len()]).unwrap()
    }

    /// Returns the arguments by numbers, with these variables.
    ///
    /// # Errors
    /// `NoMemory` where there is no memory for them.
    pub fn terms(
        &self,
        variables: &Variables<'_, '_>,
        arguments: &[Argument<'_>],
    ) -> Result<Vec<Term>, NoMemory>
        requires few { length (parameters_here (declared_of self.now)) ≤ most_parameters }
        requires few_variables { AreFew variables.now }
        ensures { IfOk result (λ terms. terms.items ≡ map (λ a. term_of (parameters_here (declared_of self.now))
            (variables_view variables.now) self.now.names.objects (argument_view a)) arguments.now) }
    {
        let mut terms = Vec::new(self.alloc);
        for argument in arguments {
            terms.push(self.term(variables, argument))?;
        }
        Ok(terms)
    }

    /// Returns the arguments by numbers, where they stand in a table's block.
    ///
    /// # Errors
    /// `NoMemory` where there is no memory for them.
    pub fn table_terms(&self, arguments: &[Argument<'_>]) -> Result<Vec<Term>, NoMemory>
        requires few { length (parameters_here (declared_of self.now)) ≤ most_parameters }
        requires few_parameters { table_parameters_here (declared_of self.now).block ≤ last_number }
        ensures { IfOk result (λ terms. terms.items ≡ map (table_term (declared_of self.now)) (map argument_view arguments.now)) }
    {
        self.terms(&Variables::OfTable(self.table_parameters()), arguments)
    }

    /// Returns the atoms by numbers, where they stand in a table's block.
    ///
    /// # Errors
    /// `NoMemory` where there is no memory for them.
    pub fn table_atoms(&self, atoms: &[SignedAtom<'_>]) -> Result<Vec<Atom>, NoMemory>
        requires readable { AreReadable (declared_of self.now) atoms.now }
        requires few_parameters { table_parameters_here (declared_of self.now).block ≤ last_number }
        ensures { IfOk result (λ numbered. numbered.items
            ≡ map (atom_of (declared_of self.now) (table_variables (declared_of self.now))) (map signed_view atoms.now)) }
    {
        self.atoms(&Variables::OfTable(self.table_parameters()), atoms)
    }

    /// Returns the atoms by numbers, with these variables.
    ///
    /// # Errors
    /// `NoMemory` where there is no memory for them.
    // Alike: `literals`, which gives each atom its sign.
    pub fn atoms(
        &self,
        variables: &Variables<'_, '_>,
        atoms: &[SignedAtom<'_>],
    ) -> Result<Vec<Atom>, NoMemory>
        requires readable { AreReadable (declared_of self.now) atoms.now }
        requires few_variables { AreFew variables.now }
        ensures { IfOk result (λ numbered. numbered.items
            ≡ map (λ x. atom_of (declared_of self.now) (variables_view variables.now) (signed_view x)) atoms.now) }
    {
        let mut numbered = Vec::new(self.alloc);
        for atom in atoms {
            numbered.push(self.atom(variables, atom))?;
        }
        Ok(numbered)
    }

    /// Returns the atoms by numbers, with these variables, each with its sign.
    ///
    /// # Errors
    /// `NoMemory` where there is no memory for them.
    pub fn literals(
        &self,
        variables: &Variables<'_, '_>,
        atoms: &[SignedAtom<'_>],
    ) -> Result<Vec<Lit>, NoMemory>
        requires readable { AreReadable (declared_of self.now) atoms.now }
        requires few_variables { AreFew variables.now }
        ensures { IfOk result (λ numbered. numbered.items
            ≡ map (λ x. literal_of (declared_of self.now) (variables_view variables.now) (signed_view x)) atoms.now) }
    {
        let mut literals = Vec::new(self.alloc);
        for atom in atoms {
            literals.push(Lit {
                positive: matches!(atom.sign, Sign::Bare),
                atom: self.atom(variables, atom),
            })?;
        }
        Ok(literals)
    }

    fn atom_edit(&self, atom: &SignedAtom<'_>) -> AtomEdit
        requires few { length (parameters_here (declared_of self.now)) ≤ most_parameters }
        requires size { HasFewArguments atom.now }
        ensures { result ≡ atom_edit_of (declared_of self.now) (signed_view atom.now) }
    {
        let edited = self.atom(&Variables::Named(&[]), atom);
        match atom.sign {
            Sign::Added => AtomEdit::Add(edited),
            _ => AtomEdit::Remove(edited),
        }
    }

    /// Returns the edits of atoms by numbers: one with the sign of an added atom adds it, and each other one removes it.
    ///
    /// # Errors
    /// `NoMemory` where there is no memory for them.
    pub fn atom_edits(&self, atoms: &[SignedAtom<'_>]) -> Result<Vec<AtomEdit>, NoMemory>
        requires readable { AreReadable (declared_of self.now) atoms.now }
        ensures { IfOk result (λ numbered. numbered.items ≡ map (λ x. atom_edit_of (declared_of self.now) (signed_view x)) atoms.now) }
    {
        let mut edits = Vec::new(self.alloc);
        for atom in atoms {
            edits.push(self.atom_edit(atom))?;
        }
        Ok(edits)
    }

    fn room_edit(&self, edit: &WrittenRoomEdit<'_>) -> RoomEdit
        ensures { result ≡ room_edit_of (declared_of self.now) (room_edit_view edit.now) }
    {
        match edit {
            WrittenRoomEdit::RobotTo(room) => RoomEdit::Robot(self.object(room)),
            WrittenRoomEdit::BoxTo(name, room) => RoomEdit::Box(
                self.object(name),
                self.object(room),
            ),
            WrittenRoomEdit::DoorTo(name, is_open) => RoomEdit::Door(self.object(name), *is_open),
        }
    }

    /// Returns the edits of a building by numbers.
    ///
    /// # Errors
    /// `NoMemory` where there is no memory for them.
    pub fn room_edits(&self, edits: &[WrittenRoomEdit<'_>]) -> Result<Vec<RoomEdit>, NoMemory>
        ensures { IfOk result (λ numbered. numbered.items
            ≡ map (λ edit. room_edit_of (declared_of self.now) (room_edit_view edit)) edits.now) }
    {
        let numbered = edits.iter().map(|e| self.room_edit(e)).collect(self.alloc)?;
        Ok(numbered)
    }

    fn binding(&self, binding: &WrittenBinding<'_>) -> Binding
        ensures { result ≡ binding_of (declared_of self.now) (binding_view binding.now) }
    {
        Binding::new(binding.parameter, self.object(binding.object))
    }

    /// Returns the bindings by numbers.
    ///
    /// # Errors
    /// `NoMemory` where there is no memory for them.
    pub fn bindings(&self, bindings: &[WrittenBinding<'_>]) -> Result<Vec<Binding>, NoMemory>
        ensures { IfOk result (λ numbered. numbered.items
            ≡ map (λ b. binding_of (declared_of self.now) (binding_view b)) bindings.now) }
    {
        let mut numbered = Vec::new(self.alloc);
        for binding in bindings {
            numbered.push(self.binding(binding))?;
        }
        Ok(numbered)
    }
}
