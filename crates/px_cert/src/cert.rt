//! Certificates, and whether what they claim is so.
ghost use Rattle.std.specs.Prelude.{◌≡◌, ◌↔◌, ◌≤◌, IsTrue, length};
ghost use Rattle.px_base.specs.Bounds.{u32_max};
ghost use Rattle.px_terms.specs.Validity.{IsValid};
ghost use Rattle.px_table.specs.Kernels.{KernelsCarry};
ghost use Rattle.px_table.specs.Tables.{IsTable};
ghost use Rattle.px_cert.specs.Certificates.{claim_of};

use crate::draft::Draft;
use px_base::Sequence;
use px_table::{Row, rows_make_table};
use px_terms::{Atom, OpInst, Problem};
use std::marker::Model;
use thiserror::Error;

/// What a certificate claims: that its steps, goal and rows, with the marks of the rows, are a table for its problem. Contracts see the
/// problem and that table.
#[derive(Drop)]
pub struct Cert {
    problem: Problem,
    param_sorts: Sequence<u32>,
    steps: Sequence<OpInst>,
    goal: Sequence<Atom>,
    goal_variable_count: u32,
    rows: Sequence<Row>,
}

impl Model for Cert {
    ghost use Rattle.std.specs.Prelude.{◌≤◌, length};
    ghost use Rattle.px_base.specs.Bounds.{u32_max};
    ghost use Rattle.std.specs.Coded.{codes};
    ghost use Rattle.px_proof.specs.contracts.proof.Proof as term;
    ghost use Rattle.px_table.specs.Tables.{table_of_rows};
    ghost use Rattle.px_cert.specs.Certificates.{Claim};

    ghost Value = { Claim };

    ghost coded = { Prim.hlevel (codes, term.the_row.coded) };

    ghost view = { λ c. record {
      problem = c.problem;
      table = table_of_rows (length c.param_sorts) c.param_sorts c.steps c.goal c.goal_variable_count c.rows;
    } };

    ghost invariant = { λ c. length c.param_sorts ≤ u32_max };
}

impl Cert {
    /// Returns the problem.
    pub fn problem(&self) -> &Problem
        ensures { result.now ≡ self.now.problem }
    {
        &self.problem
    }

    /// Returns how many parameters the table has.
    pub fn params(&self) -> u32
        ensures { result ≡ self.now.table.params }
    {
        self.param_sorts.len() as u32
    }

    /// Returns how many steps the table has.
    pub fn steps(&self) -> usize
        ensures { result ≡ length self.now.table.steps }
    {
        self.steps.len()
    }
}

/// Why bytes aren't read as a certificate.
#[derive(Clone, Copy, PartialEq, Eq, Debug, Error)]
pub enum CertErr {
    /// This line, counted from 1, is the first that doesn't have its form.
    #[error("line {line} isn't one of a certificate")]
    BadCert {
        /// The line's number.
        line: u32,
    },
    /// Out of memory.
    #[error("out of memory")]
    NoMemory,
}

/// The least limit of shapes that a problem may have: a certificate asks for no search.
const LEAST_SHAPES: u32 = 2;

/// Returns the certificate that the lines make.
pub(crate) fn cert_of(draft: Draft) -> Cert
    requires objects { length draft.objects ≤ u32_max }
    requires params { length draft.params ≤ u32_max }
    ensures { result ≡ claim_of draft }
{
    let problem = Problem {
        objects: draft.objects.len() as u32,
        arities: draft.arities,
        axioms: draft.axioms,
        schemas: draft.schemas,
        height: 1,
        nodes: 1,
        shapes: LEAST_SHAPES,
        sorts: crate::limits::GREATEST_SORT,
        object_sorts: draft.objects,
        weight: 0,
    };
    Cert {
        problem,
        param_sorts: draft.params,
        steps: draft.steps,
        goal: draft.goal,
        goal_variable_count: draft.goal_variable_count,
        rows: draft.rows,
    }
}

/// Returns whether what the certificate claims is so. If it is, each proper instance of each kernel carries the steps that are left. Does
/// not allocate.
pub fn verify(cert: &Cert) -> bool
    requires { IsValid cert.now.problem }
    ensures exact { IsTrue result ↔ IsTable cert.now.problem cert.now.table }
    ensures carries { IsTrue result → KernelsCarry cert.now.problem cert.now.table }
{
    rows_make_table(
        &cert.problem,
        cert.params(),
        cert.param_sorts.as_slice(),
        cert.steps.as_slice(),
        cert.goal.as_slice(),
        cert.goal_variable_count,
        cert.rows.as_slice(),
    )
}
