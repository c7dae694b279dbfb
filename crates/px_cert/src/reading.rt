//! Reading a certificate line by line.
ghost use Rattle.std.specs.Prelude.{◌≡◌, ◌⊎◌, ℕ, IfErr, IfOk, MatchBool};
ghost use Rattle.px_terms.specs.Validity.{IsValid};
ghost use Rattle.px_cert.specs.declared.cert.CertErr.TheVariants as refusal;
ghost use Rattle.px_cert.specs.declared.draft.Due.TheVariants as due;
ghost use Rattle.px_cert.specs.Certificates.{Claim, IsCertificate, IsFirstBadLine};
ghost use Rattle.px_cert.specs.Reading.{Leaves, next_at};
ghost use Rattle.px_cert.specs.Sound.{IsSound};

use crate::cert::{Cert, CertErr, cert_of};
use crate::draft::{Draft, Due, no_lines};
use crate::operator_lines::{add_line, delete_line, operator_line, pre_line};
use crate::problem_lines::{
    axiom_line, axioms_line, heading_line, objects_line, operators_line, predicates_line,
};
use crate::refused::Refused;
use crate::table_lines::{goal_line, row_line, step_line, steps_line, table_line};
use std::alloc::Global;

/// Reads the line that is due, and returns what is left of the bytes.
fn next_line<'a>(alloc: Global, draft: &mut Draft, bytes: &'a [u8]) -> Result<&'a [u8], Refused>
    requires { IsSound draft.old }
    ensures { Leaves draft.new result (next_at draft.old bytes.now) }
{
    match draft.due {
        Due::Heading => heading_line(draft, bytes),
        Due::Objects => objects_line(alloc, draft, bytes),
        Due::Predicates => predicates_line(alloc, draft, bytes),
        Due::Axioms => axioms_line(draft, bytes),
        Due::Axiom(more) => axiom_line(alloc, draft, bytes, more),
        Due::Operators => operators_line(draft, bytes),
        Due::Operator(more) => operator_line(alloc, draft, bytes, more),
        Due::Pre(more) => pre_line(alloc, draft, bytes, more),
        Due::Delete(more) => delete_line(alloc, draft, bytes, more),
        Due::Add(more) => add_line(alloc, draft, bytes, more),
        Due::Table => table_line(alloc, draft, bytes),
        Due::Goal => goal_line(alloc, draft, bytes),
        Due::Steps => steps_line(draft, bytes),
        Due::Step(more, rows) => step_line(alloc, draft, bytes, more, rows),
        Due::Row(more) => row_line(alloc, draft, bytes, more),
        Due::Nothing => Err(Refused::Bad),
    }
}

/// Returns whether no line is due.
fn is_whole(draft: &Draft) -> bool
    ensures { MatchBool result (draft.now.due ≡ due.Nothing) (¬ (draft.now.due ≡ due.Nothing)) }
{
    matches!(draft.due, Due::Nothing)
}

/// Reads a certificate. The certificate of each claim is read, and each input that is none is refused at the first line that doesn't have
/// its form by the lines before it, or one past the last where the input ends early.
///
/// # Errors
/// `BadCert` exactly where the bytes aren't a certificate, with the first bad line; `NoMemory` where there is no memory.
pub fn read_cert(alloc: Global, bytes: &[u8]) -> Result<Cert, CertErr>
    ensures read { IfOk result (λ cert. IsCertificate bytes.now cert) }
    ensures valid { IfOk result (λ cert. IsValid cert.problem) }
    ensures refused { (line : ℕ) → IfErr result (λ e. e ≡ refusal.BadCert line → IsFirstBadLine bytes.now line) }
    ensures all_read { (claim : Claim) → IsCertificate bytes.now claim
        → IfOk result (λ cert. cert ≡ claim) × IfErr result (λ e. e ≡ refusal.NoMemory) }
    ensures all_refused { (line : ℕ) → IsFirstBadLine bytes.now line
        → IfOk result (λ cert. ⊥) × IfErr result (λ e. (e ≡ refusal.BadCert line) ⊎ (e ≡ refusal.NoMemory)) }
{
    let mut draft = no_lines(alloc);
    let mut rest = bytes;
    let mut line = 1;
    while !is_whole(&draft) {
        match next_line(alloc, &mut draft, rest) {
            Ok(more) => rest = more,
            Err(Refused::Bad) => return Err(CertErr::BadCert { line }),
            Err(Refused::NoMemory) => return Err(CertErr::NoMemory),
        }
        line += 1;
    }
    if !rest.is_empty() {
        return Err(CertErr::BadCert { line });
    }
    Ok(cert_of(draft))
}
