//! Certificates: a triangle table with the problem that it is for, in numbers, as text that a reader who distrusts the planner can check.
//!
//! # Calling it
//!
//! - [`cert_text`] writes the certificate of a table. Any table has a text; where the table is one for the problem and both are within
//!   the limits (`IsCertifiable` of `specs/Certificates`), the text is a certificate of the same table and the same problem, but for the
//!   limits of its searches and how many sorts there are ([`tables_are_certified`]).
//! - [`read_cert`] reads a certificate. Each input is the certificate of one claim or has one first bad line, and never both
//!   ([`certificates_read_one_way`]). A [`Cert`] is seen by contracts as a `Claim`: a problem, which is valid, and a table.
//! - [`verify`] says whether the claim is so: whether the table is one for the problem (`IsTable` of `px_table`). Where it says yes, each
//!   proper instance of each kernel carries the steps that are left to the goal, by the certificate's own axioms and operators
//!   (`KernelsCarry`). It doesn't allocate.
//! - `specs/Lines` says how each line is written, `specs/Drafts` which line may come next by those before it, and `specs/Limits` the
//!   greatest numbers. No public clause cites `specs/Reading` and `specs/Sound`.
#![tactic(auto)]

mod cert;
mod draft;
mod laws;
mod limits;
mod numbers;
mod operator_lines;
mod problem_lines;
mod proof_terms;
mod reading;
mod refused;
mod table_lines;
mod terms;
mod words;
mod writing;

pub use cert::{Cert, CertErr, verify};
pub use laws::{
    certificates_read_one_way, claims_are_texts, tables_are_certified, worked_certificates,
};
pub use reading::read_cert;
pub use writing::cert_text;
