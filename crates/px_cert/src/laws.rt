//! Laws about the definitions. The calls do nothing.
ghost use Rattle.std.specs.Prelude.{ℕ, List};
ghost use Rattle.px_cert.specs.CertificateClaims.{ClaimsAreTexts, ReadsOneWay, TablesAreCertified};
ghost use Rattle.px_cert.specs.Worked.{WorkedCertificates};

/// All bytes are the certificate of one claim, or have one first bad line.
pub fn certificates_read_one_way()
    ensures { (bytes : List ℕ) → ReadsOneWay bytes }
{}

/// The certificates of a claim are its one text, where it is in range, and else there are none. Its problem is valid.
pub fn claims_are_texts()
    ensures { ClaimsAreTexts }
{}

/// What may be certified has a certificate, which is right where the table is and worth the same.
pub fn tables_are_certified()
    ensures { TablesAreCertified }
{}

/// The certificate of a plan of one step, a certificate of a table that is none, and one that lacks its last line.
pub fn worked_certificates()
    ensures { WorkedCertificates }
{}
