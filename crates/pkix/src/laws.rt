//! Laws of the kinds by which the structures are refused, for callers to cite. Each law is the
//! contract of a function, which does nothing else.
ghost use Rattle.pkix.specs.Records.{algorithm_fault, attribute_fault, extension_fault};
ghost use Rattle.pkix.specs.Records.{asymmetric_key_fault, certificate_fault, key_attribute_fault};
ghost use Rattle.pkix.specs.Records.{names_fault, private_key_fault, public_key_fault};
ghost use Rattle.pkix.specs.Records.{signature_fault, tbs_fault, validity_fault};
ghost use Rattle.sec1_der.specs.Faults.{SaysKinds, element_fault, end_fault};

/// The rule of the element of each structure leaves no kind open.
pub fn said_kinds()
    ensures certificate { SaysKinds (element_fault 0x30 certificate_fault end_fault) }
    ensures tbs_certificate { SaysKinds (element_fault 0x30 tbs_fault end_fault) }
    ensures algorithm { SaysKinds (element_fault 0x30 algorithm_fault end_fault) }
    ensures name { SaysKinds (element_fault 0x30 names_fault end_fault) }
    ensures name_attribute { SaysKinds (element_fault 0x30 attribute_fault end_fault) }
    ensures validity { SaysKinds (element_fault 0x30 validity_fault end_fault) }
    ensures extension { SaysKinds (element_fault 0x30 extension_fault end_fault) }
    ensures public_key { SaysKinds (element_fault 0x30 public_key_fault end_fault) }
    ensures private_key { SaysKinds (element_fault 0x30 private_key_fault end_fault) }
    ensures asymmetric_key { SaysKinds (element_fault 0x30 asymmetric_key_fault end_fault) }
    ensures key_attribute { SaysKinds (element_fault 0x30 key_attribute_fault end_fault) }
    ensures signature { SaysKinds (element_fault 0x30 signature_fault end_fault) }
{}
