//! The word `check`: a certificate is read, and it is said whether it is right.
ghost use Rattle.std.specs.Prelude.{◌≡◌, ◌+◌, IfOk, List, ℕ, length};
ghost use Rattle.std.specs.Io.KnownBytes.{Consumes};
ghost use Rattle.px_cert.specs.Certificates.{Claim};
ghost use Rattle.px_terms.specs.Validity.{IsValid};
ghost use Rattle.px_run.specs.Outcomes.{source_ends, sink_ends, CheckRight, IsVerdict, JudgedRight};

use crate::status::Status;
use crate::top::{read_input, refuse};
use px_cert::{Cert, CertErr, read_cert, verify};
use px_io::{Sink, Source, put};
use px_printer::{no_text, yes_text};
use px_reader::Refused;
use px_terms::NoMemory;
use std::alloc::Global;

/// The code of bytes that aren't a certificate.
const NO_CERTIFICATE: u8 = 13;

// Alike: `run` of top.rt, since each states its own contract over the same source and sink.
/// Reads a certificate, and says whether it is right.
pub(crate) fn check<S: Source, K: Sink>(alloc: Global, source: &mut S, sink: &mut K) -> Status
    ensures right { CheckRight
        (source_ends S.left S.taken S.faults S.never_fails source.old source.new)
        (sink_ends K.written K.faults K.sure sink.old sink.new)
        result }
    ensures gone { (came : List ℕ) × Consumes (S.left source.old) (S.left source.new) came
        × (S.taken source.new ≡ S.taken source.old + length came) }
    ensures source_nature { S.never_fails source.new ≡ S.never_fails source.old }
    ensures sink_nature { K.sure sink.new ≡ K.sure sink.old }
{
    let bytes = match read_input(alloc, source) {
        Ok(bytes) => bytes,
        Err(unread) => return unread,
    };
    match read_cert(alloc, &bytes) {
        Ok(cert) => {
            let status = judge(alloc, &cert, sink);
            // by a call, which is proved once: where a scope ends, the proof takes each part by itself
            drop(cert);
            status
        }
        Err(CertErr::BadCert { line }) => refuse(
            alloc,
            Refused {
                line,
                code: NO_CERTIFICATE,
                limit: 0,
            },
            sink,
        ),
        Err(CertErr::NoMemory) => Status::NoMemory,
    }
}

/// Writes whether the certificate is right.
fn judge<K: Sink>(alloc: Global, cert: &Cert, sink: &mut K) -> Status
    requires valid { IsValid cert.now.problem }
    ensures right { JudgedRight cert.now (sink_ends K.written K.faults K.sure sink.old sink.new) result }
    ensures nature { K.sure sink.new ≡ K.sure sink.old }
{
    let Ok(text) = verdict(alloc, cert) else {
        return Status::NoMemory;
    };
    match put(sink, &text) {
        Ok(()) => Status::Done,
        Err(_) => Status::WriteFault,
    }
}

/// Returns the line that says whether the certificate is right.
fn verdict(alloc: Global, cert: &Cert) -> Result<Vec<u8>, NoMemory>
    requires valid { IsValid cert.now.problem }
    ensures { IfOk result (λ text. IsVerdict cert.now text.items) }
{
    if verify(cert) {
        return yes_text(alloc, cert.params(), cert.steps());
    }
    let mut text = Vec::new(alloc);
    text.extend_from_slice(no_text().as_bytes())?;
    Ok(text)
}
