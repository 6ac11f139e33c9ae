ghost use Rattle.pkix.specs.Records.{certificate_content, certificate_fault};
ghost use Rattle.pkix.specs.declared.certificate.Certificate.{Certificate};
ghost use Rattle.sec1_der.specs.Elements.{element_of};
ghost use Rattle.sec1_der.specs.Faults.{HasFault, element_fault, end_fault};
ghost use Rattle.std.specs.Prelude.{◌≡◌, Ok, Some};

use pkix::{Certificate, Name};
use sec1_der::Result;

/// Returns the name of a certificate's issuer (RFC 5280 section 4.1.2.4).
///
/// # Errors
///
/// Those of [`Certificate::from_der`].
pub fn issuer(bytes: &[u8]) -> Result<Name<'_>>
    ensures only { (certificate : Certificate)
        → element_of 0x30 (certificate_content certificate) ≡ Some bytes.now
        → result ≡ Ok certificate.tbs_certificate.issuer }
    ensures kind { HasFault result (element_fault 0x30 certificate_fault end_fault bytes.now) }
{
    let certificate = Certificate::from_der(bytes)?;
    Ok(certificate.tbs_certificate.issuer)
}
