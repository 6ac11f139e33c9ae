//! What is said last: tables of words and commands.
ghost use Rattle.std.specs.Prelude.{◌≡◌, map, slice_index};
ghost use Rattle.der_view.specs.Sentences.{advice_command, advice_words, command_of, file_words};
ghost use Rattle.der_view.specs.Sentences.{form_in, form_words, is_pgp_key, reason_of, words_of};

use crate::grammar::Name;

/// How OpenSSL reads the bytes that something is said of.
#[derive(Clone, Copy)]
pub enum Reading {
    /// As DER.
    Der,
    /// As PEM.
    Pem,
    /// Not at all.
    Nothing,
}

/// What is said of an input, or of a part of it.
#[derive(Clone, Copy)]
pub enum Sentence {
    /// A block of PEM that is encrypted (RFC 1421).
    EncryptedBlock,
    /// A key in PEM that is encrypted (RFC 1421), and that OpenSSL reads.
    EncryptedEcKey,
    /// A block of PEM that is no base64.
    NoBase64,
    /// A block of OpenPGP.
    Pgp,
    /// A key in OpenSSH's own form.
    Openssh,
    /// The same, with carriage returns.
    OpensshCarriage,
    /// The same, of an Ed25519 key.
    OpensshEdwards,
    /// The output of xxd.
    Xxd,
    /// The output of hexdump or od.
    Dump,
    /// A key of PuTTY.
    Putty,
    /// The same, of an Ed25519 or Ed448 key.
    PuttyEdwards,
    /// A public key of OpenSSH.
    Ssh,
    /// JSON.
    Json,
    /// Any other text.
    Text,
    /// A text of two bytes a character.
    Utf16,
    /// A text of four bytes a character.
    Utf32,
}

/// Why a block isn't drawn, after its label; what is said; and the command that helps: of each
/// [`Sentence`], in their order.
#[rattlefmt::skip]
static SENTENCES: [(&str, &str, &str); 16] = [
    ("encrypted (RFC 1421), not drawn", "", ""),
    ("encrypted (RFC 1421), not drawn",
    "If OpenSSL reads it, this asks for the password and writes it in DER:",
    "openssl ec -in FILE -outform DER -out key.der"),
    ("no base64, not drawn", "", ""),
    ("OpenPGP (RFC 9580), not drawn", "", ""),
    ("no DER, not drawn",
    "This is OpenSSH's own form. If ssh-keygen reads it, this makes PEM of a copy of it:",
    "ssh-keygen -p -m PEM -f COPY"),
    ("no DER, not drawn", "This is OpenSSH's own form.", ""),
    ("no DER, not drawn", "This is OpenSSH's own form, of a key that ssh-keygen makes no PEM of.",
    ""),
    ("", "This begins as the output of xxd. If it is that, this draws it:",
    "xxd -r FILE | sec1_dump"),
    ("", "This begins with an offset, as of hexdump or od: no hexadecimal alone.", ""),
    ("", "This is PuTTY's own form. If puttygen reads it, this makes PEM of it:",
    "puttygen FILE -O private-openssh -o key.pem"),
    ("", "This is PuTTY's own form, of a key that puttygen makes no PEM of.", ""),
    ("", "This begins as a public key of OpenSSH: no DER.", ""),
    ("", "This is JSON, perhaps a JWK (RFC 7517): no DER.", ""),
    ("", "This is text, and no PEM, hexadecimal or base64.", ""),
    ("", "This begins as text in UTF-16. Write it in UTF-8 first.", ""),
    ("", "This begins as text in UTF-32. Write it in UTF-8 first.", ""),
];

#[tactic(auto, unfolding(crate::specs::Sentences::sentence_row))]
impl Sentence {
    /// Returns why a block isn't drawn, after its label; empty of any other text.
    pub fn reason(self) -> &'static str
        ensures { result.now ≡ reason_of self }
    {
        SENTENCES[self as usize].0
    }

    /// Returns what is said; empty if nothing is.
    pub fn words(self) -> &'static str
        ensures { result.now ≡ words_of self }
    {
        SENTENCES[self as usize].1
    }

    /// Returns the command that helps; empty if there is none.
    pub fn command(self) -> &'static str
        ensures { result.now ≡ command_of self }
    {
        SENTENCES[self as usize].2
    }
}

/// Returns what is said of bytes that begin as a file of a known kind; nothing of others.
#[tactic(auto, unfolding(crate::specs::Sentences::file_words))]
pub(crate) fn file_words(bytes: &[u8]) -> &'static str
    ensures { result.now ≡ file_words bytes.now }
{
    let java = "This begins as a Java keystore: no DER.";
    match bytes {
        _ if bytes.starts_with(&[0xFE, 0xED, 0xFE, 0xED]) => java,
        _ if bytes.starts_with(&[0xCE, 0xCE, 0xCE, 0xCE]) => java,
        _ if bytes.starts_with(&[0x1F, 0x8B, 0x08]) => "This begins as gzip (RFC 1952): no DER.",
        _ if bytes.starts_with(&[0x1E, 0xF1, 0xB5, 0xB0]) => "This begins as a PVK file: no DER.",
        _ if bytes.starts_with(&[0x03, 0xD9, 0xA2, 0x9A]) => {
            "This begins as a KeePass file: no DER."
        }
        _ if is_pgp_key(bytes) => "This begins as an OpenPGP key (RFC 9580): no DER.",
        _ => "",
    }
}

/// Returns `true` if bytes begin as a key of OpenPGP of version 4 does, with a length of two bytes
/// (RFC 9580 sections 4.2.2 and 5.5.2).
fn is_pgp_key(bytes: &[u8]) -> bool
    ensures { result ≡ is_pgp_key bytes.now }
{
    let len = usize::from(byte_at(bytes, 1)) * 256 + usize::from(byte_at(bytes, 2));
    matches!(byte_at(bytes, 0), 0x95 | 0x99)
        && byte_at(bytes, 3) == 0x04
        && len <= bytes.len().saturating_sub(3)
}

/// Returns a byte, or 0 if there are fewer.
pub(crate) fn byte_at(bytes: &[u8], place: usize) -> u8
    ensures { result ≡ slice_index bytes.now place }
{
    if place < bytes.len() { bytes[place] } else { 0 }
}

/// The forms but that of an EC private key: the name, what bytes of it are, and what is said of
/// those that are all of it.
#[rattlefmt::skip]
static FORMS: [(Name, &str, &str); 24] = [
    (Name::PrivateKeyInfo, "PKCS #8 (RFC 5958)", "This is %f with an EC key."),
    (Name::RsaPrivateKey, "an RSA private key (RFC 8017)", "This is %f, no EC key."),
    (Name::DsaPrivateKey, "a DSA private key", "This is %f, no EC key."),
    (Name::Pfx, "PKCS #12 (RFC 7292)", "This is %f."),
    (Name::Certificate, "a certificate (RFC 5280)", "This is %f: it has no private key."),
    (Name::CertificationRequest, "a certification request (RFC 2986)",
    "This is %f: it has no private key."),
    (Name::CertificateList, "a list of revoked certificates (RFC 5280)",
    "This is %f: it has no private key."),
    (Name::PublicKeyInfo, "a public key (RFC 5280)", "This is %f: it has no private key."),
    (Name::DhParameter, "Diffie-Hellman parameters (PKCS #3)",
    "These are INTEGERs, as of %f or an RSA public key: no key."),
    (Name::RsaPublicKey, "an RSA public key (RFC 8017)",
    "These are two INTEGERs, as of %f: no private key."),
    (Name::Signature, "an ECDSA signature (RFC 3279)",
    "These are two INTEGERs, as of %f: no key."),
    (Name::DsaParameters, "DSA parameters (RFC 3279)",
    "These are three INTEGERs, as of %f: no key."),
    (Name::DomainParameters, "Diffie-Hellman parameters (RFC 3279)",
    "These are INTEGERs, as of %f: no key."),
    (Name::EcParameters, "the parameters of a curve (RFC 3279)", "These are %f: no key."),
    (Name::NamedCurve, "an identifier", "This is %f: it has no private key."),
    (Name::ContentInfo, "CMS or PKCS #7 (RFC 5652)", "This is %f, no EC key."),
    (Name::EncryptedPrivateKeyInfo, "encrypted PKCS #8 (RFC 5958)", "This is %f."),
    (Name::DigestInfo, "a digest (RFC 8017)", "This is %f, no EC key."),
    (Name::OcspRequest, "an OCSP request (RFC 6960)", "This is %f, no EC key."),
    (Name::OcspResponse, "an OCSP response (RFC 6960)", "This is %f, no EC key."),
    (Name::TimeStampReq, "a time stamp query (RFC 3161)", "This is %f, no EC key."),
    (Name::TimeStampResp, "a time stamp reply (RFC 3161)", "This is %f, no EC key."),
    (Name::AsymmetricKeyPackage, "a package of private keys (RFC 5958)",
    "This is %f, no EC key."),
    (Name::SafeContents, "the inside of PKCS #12 (RFC 7292)", "This is %f, no EC key."),
];

/// Returns what bytes of the form with this name are, and what is said of those that are all of it.
#[tactic(auto, unfolding(crate::specs::Sentences::form_words))]
pub(crate) fn form_words(name: Name) -> (&'static str, &'static str)
    ensures { (result.0.now, result.1.now) ≡ form_words name }
{
    form_in(&FORMS, name)
}

/// Returns the same by the first of these rows with this name.
fn form_in(forms: &[(Name, &'static str, &'static str)], name: Name) -> (&'static str, &'static str)
    ensures { (result.0.now, result.1.now)
        ≡ form_in (map (λ row. (row.0, row.1.now, row.2.now)) forms.now) name }
{
    match forms {
        [(own, form, whole), ..] if own.is(name) => (*form, *whole),
        [_, others @ ..] => form_in(others, name),
        [] => ("EC private key (RFC 5915)", "This is no %f."),
    }
}

/// A command that helps.
#[derive(Clone, Copy)]
pub enum Advice {
    /// None.
    Nothing,
    /// Makes the DER of a key.
    Der,
    /// Makes the DER of a key that is read, of PEM alone.
    Pem,
    /// Makes the DER of a key, with the name of its curve.
    Named,
    /// Makes the DER of an encrypted key.
    Encrypted,
    /// Makes the DER of a key that is encrypted as before 2000.
    Legacy,
    /// Makes PEM of the keys of PKCS #12.
    Pkcs12,
    /// Makes PEM of the keys of PKCS #12 with a MAC of SHA-1.
    LegacyPkcs12,
}

/// What each command does, the command that reads DER, and the one that reads PEM, in the order of
/// [`Advice`].
#[rattlefmt::skip]
static COMMANDS: [(&str, &str, &str); 8] = [
    ("", "", ""),
    ("If OpenSSL reads it, this writes it in DER:",
    "  openssl ec -inform DER -in FILE -outform DER -out key.der",
    "  openssl ec -in FILE -outform DER -out key.der"),
    ("If OpenSSL reads it, this writes it in DER:", "",
    "  openssl ec -in FILE -outform DER -out key.der"),
    ("Its curve is given by parameters. If OpenSSL knows it, this names it:",
    "  openssl ec -inform DER -in FILE -param_enc named_curve -outform DER -out key.der",
    "  openssl ec -in FILE -param_enc named_curve -outform DER -out key.der"),
    ("If it has an EC key, this asks for the password and writes it:",
    "  openssl ec -inform DER -in FILE -outform DER -out key.der",
    "  openssl ec -in FILE -outform DER -out key.der"),
    ("If it has an EC key, this asks for the password and writes it:",
    "  openssl ec -provider legacy -provider default -inform DER -in FILE -outform DER \
        -out key.der",
    "  openssl ec -provider legacy -provider default -in FILE -outform DER -out key.der"),
    ("If OpenSSL reads it, this asks for the password and writes its keys as PEM:",
    "  openssl pkcs12 -in FILE -nodes -nocerts -out key.pem", ""),
    ("If OpenSSL reads it, this asks for the password and writes its keys as PEM:",
    "  openssl pkcs12 -legacy -in FILE -nodes -nocerts -out key.pem", ""),
];

#[tactic(auto, unfolding(crate::specs::Sentences::advice_row))]
impl Advice {
    /// Returns what the command does that reads bytes as OpenSSL does; empty if there is none.
    pub fn words(self, reading: Reading) -> &'static str
        ensures { result.now ≡ advice_words self reading }
    {
        if self.command(reading).is_empty() {
            ""
        } else {
            COMMANDS[self as usize].0
        }
    }

    /// Returns the command that reads bytes as OpenSSL does, after two spaces; empty if there is
    /// none.
    pub fn command(self, reading: Reading) -> &'static str
        ensures { result.now ≡ advice_command self reading }
    {
        match reading {
            Reading::Der => COMMANDS[self as usize].1,
            Reading::Pem => COMMANDS[self as usize].2,
            Reading::Nothing => "",
        }
    }
}
