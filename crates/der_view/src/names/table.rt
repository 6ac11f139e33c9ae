//! The names of identifiers, as `tests/dump/make_names.py` makes them of `names.txt`.

/// A row for all identifiers whose contents have one front, which is all but the last byte: the
/// number whose digits in base 256 are a 128 and the front, and how many bytes its names have.
// With a 128, neither half of a number looks like an address of the module for WebAssembly.
#[rattlefmt::skip]
pub(super) static ROWS: [(u128, usize); 169] = [
    (0x80_2B65, 136), (0x80_5504, 1023), (0x80_5506, 321), (0x80_551D, 754), (0x80_550610, 28),
    (0x80_550801, 5), (0x80_551D20, 10), (0x80_551D25, 20), (0x80_2A850364, 162),
    (0x80_2B0E0302, 112), (0x80_2B240302, 31), (0x80_2B240803, 233), (0x80_2B810400, 307),
    (0x80_2B810401, 23), (0x80_672B0104, 258), (0x80_67810502, 141), (0x80_67810508, 45),
    (0x80_67810C01, 15), (0x80_67810C03, 28), (0x80_0400819827, 24), (0x80_04008B3001, 33),
    (0x80_04008E4601, 144), (0x80_04008F7A01, 33), (0x80_0400913703, 18), (0x80_2A85030202, 274),
    (0x80_2B06010502, 13), (0x80_2B06010505, 9), (0x80_2B24030301, 80), (0x80_2B8104010B, 144),
    (0x80_2B8104010E, 164), (0x80_2B8104010F, 124), (0x80_67810C0102, 62), (0x80_040081982701, 69),
    (0x80_04008BEC4001, 62), (0x80_04008E460106, 44), (0x80_2A850302020D, 57),
    (0x80_2A850302020E, 63), (0x80_2A850302021E, 57), (0x80_2A850302021F, 162),
    (0x80_2A8503020220, 138), (0x80_2A8503020221, 112), (0x80_2A8503020223, 136),
    (0x80_2A8503020224, 78), (0x80_2A8648CE3802, 72), (0x80_2A8648CE3804, 20),
    (0x80_2A8648CE3D01, 38), (0x80_2A8648CE3D02, 13), (0x80_2A8648CE3D04, 61),
    (0x80_2A8648CE3E02, 16), (0x80_2B0601050203, 83), (0x80_67810C010501, 82),
    (0x80_67810C010502, 97), (0x80_67810C010503, 82), (0x80_67810C010504, 91),
    (0x80_2A811CCF550168, 33), (0x80_2A811CCF550182, 49), (0x80_2A811CCF550183, 156),
    (0x80_2A831A8C9A4401, 12), (0x80_2A850303810301, 5), (0x80_2A850307010101, 43),
    (0x80_2A850307010102, 44), (0x80_2A850307010103, 74), (0x80_2A850307010104, 55),
    (0x80_2A850307010106, 65), (0x80_2A864886F70D02, 127), (0x80_2A864886F70D03, 42),
    (0x80_2A8648CE3D0300, 221), (0x80_2A8648CE3D0301, 68), (0x80_2A8648CE3D0403, 73),
    (0x80_2B060105050701, 262), (0x80_2B060105050702, 13), (0x80_2B060105050703, 389),
    (0x80_2B060105050704, 298), (0x80_2B060105050706, 149), (0x80_2B060105050707, 409),
    (0x80_2B060105050708, 106), (0x80_2B060105050709, 73), (0x80_2B06010505070A, 68),
    (0x80_2B06010505070B, 33), (0x80_2B06010505070C, 22), (0x80_2B06010505070E, 37),
    (0x80_2B060105050715, 35), (0x80_2B060105050730, 89), (0x80_2B060105050801, 20),
    (0x80_2B060105050802, 34), (0x80_60864801650306, 49), (0x80_04007F0007020201, 15),
    (0x80_04007F0007030102, 10), (0x80_2A831A8C9A6E0101, 412), (0x80_2A85030701020101, 137),
    (0x80_2A85030701020102, 139), (0x80_2A85030701020501, 25), (0x80_2A864886F67D0742, 65),
    (0x80_2A864886F70D0101, 291), (0x80_2A864886F70D0103, 16), (0x80_2A864886F70D0105, 154),
    (0x80_2A864886F70D0107, 81), (0x80_2A864886F70D0109, 292), (0x80_2A864886F7120102, 7),
    (0x80_2A864886F72F0101, 36), (0x80_2A8648CE3D010203, 25), (0x80_2B0601040182370A, 38),
    (0x80_2B0601040182370D, 27), (0x80_2B06010401823711, 65), (0x80_2B06010401823714, 81),
    (0x80_2B06010401823715, 569), (0x80_2B06010401823719, 51), (0x80_2B0601040182DA4B, 60),
    (0x80_2B060104018B3A82, 97), (0x80_2B06010401DA4704, 18), (0x80_2B06010505070501, 87),
    (0x80_2B06010505070502, 19), (0x80_2B06010505073001, 126), (0x80_2B24030302080101, 225),
    (0x80_2B81051086483F00, 116), (0x80_6086480165030401, 341), (0x80_6086480165030402, 233),
    (0x80_6086480165030403, 1116), (0x80_6086480165030404, 47), (0x80_6086480186F84201, 185),
    (0x80_6086480186F84202, 28), (0x80_04007F000701010401, 116), (0x80_04007F000702020202, 84),
    (0x80_04007F000702020302, 97), (0x80_04007F000702020402, 117), (0x80_0992268993F22C6401, 606),
    (0x80_0992268993F22C6404, 206), (0x80_2A831A8C9A44070101, 23), (0x80_2A864886F70D01090F, 61),
    (0x80_2A864886F70D010916, 33), (0x80_2A864886F70D010917, 9), (0x80_2A864886F70D010918, 26),
    (0x80_2A864886F70D010919, 73), (0x80_2A864886F70D010C01, 163), (0x80_2A864886F714010482, 83),
    (0x80_2B0601040182370201, 422), (0x80_2B0601040182370302, 30), (0x80_2B0601040182370303, 19),
    (0x80_2B0601040182370A01, 18), (0x80_2B0601040182370A03, 307), (0x80_2B0601040182370A04, 24),
    (0x80_2B0601040182370A05, 11), (0x80_2B0601040182370A06, 37), (0x80_2B0601040182370A08, 26),
    (0x80_2B0601040182370A09, 30), (0x80_2B0601040182370A0A, 26), (0x80_2B0601040182370D02, 81),
    (0x80_2B0601040182371402, 73), (0x80_2B060104018B3A819C, 78), (0x80_2B06010401D6790204, 73),
    (0x80_608648016503020103, 251), (0x80_6086480186F8420301, 130), (0x80_6086480186F8420302, 16),
    (0x80_6086480186F8450109, 74), (0x80_2A83088C9A4B3D010101, 50), (0x80_2A83088C9A4B3D010103, 53),
    (0x80_2A864886F70D01091001, 288), (0x80_2A864886F70D01091002, 629),
    (0x80_2A864886F70D01091003, 170), (0x80_2A864886F70D01091005, 21),
    (0x80_2A864886F70D01091006, 116), (0x80_2A864886F70D0109100B, 20),
    (0x80_2A864886F70D010C0A01, 69), (0x80_2B0601040182370A0304, 20),
    (0x80_2B0601040182373C0201, 82), (0x80_2B0601040182E51C0101, 23),
    (0x80_2B060104018D3A0C0201, 57), (0x80_2B060104018D3A0C0202, 49),
    (0x80_6086480186F842030181, 135),
];

/// The names of each row, by the last byte from 0 on, with a comma after each. An empty one is
/// none.
pub(super) static NAMES: [u8; 19999] = *b"\
    ,,,,,,,,,,,,,,,,,,,,,,,,,,,,,,,,,,,,,,,,,,,,,,,,,,,,,,,,,,,,,,,,,,,,,,,,,,,,,,,,,,,,,,,,,,,,,,,\
    ,,,,,,,,,,,,,,,X25519,X448,Ed25519,Ed448,objectClass,aliasedEntryName,knowledgeInformation,\
    commonName,surname,serialNumber,countryName,localityName,stateOrProvinceName,streetAddress,\
    organizationName,organizationalUnitName,title,description,searchGuide,businessCategory,\
    postalAddress,postalCode,postOfficeBox,physicalDeliveryOfficeName,telephoneNumber,telexNumber,\
    teletexTerminalIdentifier,facsimileTelephoneNumber,x121Address,internationalISDNNumber,\
    registeredAddress,destinationIndicator,preferredDeliveryMethod,presentationAddress,\
    supportedApplicationContext,member,owner,roleOccupant,seeAlso,userPassword,userCertificate,\
    cACertificate,authorityRevocationList,certificateRevocationList,crossCertificatePair,name,\
    givenName,initials,generationQualifier,x500UniqueIdentifier,dnQualifier,enhancedSearchGuide,\
    protocolInformation,distinguishedName,uniqueMember,houseIdentifier,supportedAlgorithms,\
    deltaRevocationList,dmdName,,,,attributeCertificateAttribute,,,,,,,pseudonym,,,,,,,role,,,,,,,,\
    ,,,,,,,,,,,,,,,,,organizationIdentifier,countryCode3c,countryCode3n,dnsName,top,alias,country,\
    locality,organization,organizationalUnit,person,organizationalPerson,organizationalRole,\
    groupOfNames,residentialPerson,applicationProcess,applicationEntity,dSA,device,\
    strongAuthenticationUser,certificationAuthority,groupOfUniqueNames,userSecurityInformation,\
    cRLDistributionPoint,,pkiUser,pkiCA,deltaCRL,,,,,,,,,,subjectDirectoryAttributes,,,,,\
    subjectKeyIdentifier,keyUsage,privateKeyUsagePeriod,subjectAltName,issuerAltName,\
    basicConstraints,cRLNumber,cRLReasons,,holdInstructionCode,invalidityDate,,,deltaCRLIndicator,\
    issuingDistributionPoint,certificateIssuer,nameConstraints,cRLDistributionPoints,\
    certificatePolicies,policyMappings,,authorityKeyIdentifier,policyConstraints,extKeyUsage,\
    authorityAttributeIdentifier,roleSpecCertIdentifier,cRLStreamIdentifier,basicAttConstraints,\
    delegatedNameConstraints,timeSpecification,cRLScope,statusReferrals,freshestCRL,orderedList,\
    attributeDescriptor,userNotice,sOAIdentifier,baseUpdateTime,acceptableCertPolicies,deltaInfo,\
    inhibitAnyPolicy,targetInformation,noRevAvail,acceptablePrivilegePolicies,,,,indirectIssuer,,,\
    certificationAuthority-V2,,rsa,anyPolicy,anyExtendedKeyUsage,,OGRN,,SNILS,INNLE,OGRNIP,,,,,,,,,\
    ,,,,,,,,,,,,,,,,,,,,,,,,,,,,,,,,,,,,,,,,,,,,,,,,,,,,,,,,,,,,,,,,,,,,,,,,,,,,,,,,,,,,,,,,,,,,,,,\
    ,,subjectSignTool,issuerSignTool,,,,md5WithRSA,,,desECB,desCBC,desOFB,desCFB,,,dsa,dsaWithSHA,,\
    ,,desEDE,sha,,,,,,,,sha1,dsaWithSHA1,,sha1WithRSA,,ripemd160,ripemd128,ripemd256,,isismtt-at-\
    dateOfCertGen,isismtt-at-procuration,isismtt-at-admission,isismtt-at-monetaryLimit,isismtt-at-\
    declarationOfMajority,,,isismtt-at-restriction,,,,,isismtt-at-certHash,isismtt-at-nameAtBirth,\
    isismtt-at-additionalInformation,,sect163k1,sect163r1,sect239k1,sect113r1,sect113r2,secp112r1,\
    secp112r2,secp160r1,secp160k1,secp256k1,,,,,sect163r2,sect283k1,sect283r1,,,,,sect131r1,\
    sect131r2,sect193r1,sect193r2,sect233k1,sect233r1,secp128r1,secp128r2,secp160r2,secp192k1,\
    secp224k1,P-224,P-384,P-521,sect409k1,sect409r1,sect571k1,sect571r1,,,,,,,,,,,,,ecDH,ecMQV,,\
    wap-wsg-idm-ecid-wtls1,,wap-wsg-idm-ecid-wtls3,wap-wsg-idm-ecid-wtls4,wap-wsg-idm-ecid-wtls5,\
    wap-wsg-idm-ecid-wtls6,wap-wsg-idm-ecid-wtls7,wap-wsg-idm-ecid-wtls8,wap-wsg-idm-ecid-wtls9,\
    wap-wsg-idm-ecid-wtls10,wap-wsg-idm-ecid-wtls11,wap-wsg-idm-ecid-wtls12,,tcg-at-\
    tpmManufacturer,tcg-at-tpmModel,tcg-at-tpmVersion,,,,,,,,,,,,tcg-at-tpmIdLabel,tcg-at-\
    tpmSpecification,,tcg-at-tpmSecurityAssertions,,tcg-kp-EKCertificate,,tcg-kp-AIKCertificate,,\
    ev-guidelines,,cabfOrganizationIdentifier,,,etsi-psd2-qcStatement,,qcp-public-with-sscd,qcp-\
    public,,etsi-qcs-QcCompliance,etsi-qcs-QcLimitValue,etsi-qcs-QcRetentionPeriod,etsi-qcs-QcSSCD,\
    etsi-qcs-QcPDS,etsi-qcs-QcType,etsi-qcs-QcCClegislation,,ncp,ncpplus,lcp,evcp,,dvcp,ovcp,tsl-\
    kp-tslSigning,,,,GostR3411-94-with-GostR3410-2001,GostR3411-94-with-GostR3410-94,,,,,GostR3411-\
    94,HMACGostR3411-94,,,,,,,,,GostR3410-2001,GostR3410-94,Gost28147-89,Gost28147-89-MAC,,,,,,,,,,\
    ,,,,,,,,,,,,,,,,,,,,,,,,,,,,,,,,,,,,,,,,,,,,,,,,,,,,,,,,,,,,,,,,,,GostR3410-2001DH,GostR3410-\
    94DH,,,pkinit-san,,,spnego,,,rsaSignatureWithripemd160,rsaSignatureWithripemd128,\
    rsaSignatureWithripemd256,dhSinglePass-stdDH-sha224kdf-scheme,dhSinglePass-stdDH-sha256kdf-\
    scheme,dhSinglePass-stdDH-sha384kdf-scheme,dhSinglePass-stdDH-sha512kdf-scheme,dhSinglePass-\
    cofactorDH-sha224kdf-scheme,dhSinglePass-cofactorDH-sha256kdf-scheme,dhSinglePass-cofactorDH-\
    sha384kdf-scheme,dhSinglePass-cofactorDH-sha512kdf-scheme,mqvSinglePass-sha224kdf-scheme,\
    mqvSinglePass-sha256kdf-scheme,mqvSinglePass-sha384kdf-scheme,mqvSinglePass-sha512kdf-scheme,,\
    domain-validated,organization-validated,individual-validated,,psd2-role-psp-as,psd2-role-psp-\
    pi,psd2-role-psp-ai,psd2-role-psp-ic,qcp-natural,qcp-legal,qcp-natural-qscd,qcp-legal-qscd,qcp-\
    web,,etsi-qct-esign,etsi-qct-eseal,etsi-qct-web,Gost28147-89-None-KeyWrap,Gost28147-89-\
    CryptoPro-KeyWrap,Gost28147-89-None-KeyMeshing,Gost28147-89-CryptoPro-KeyMeshing,GostR3411-94-\
    TestParamSet,GostR3411-94-CryptoProParamSet,Gost28147-89-TestParamSet,Gost28147-89-CryptoPro-A-\
    ParamSet,Gost28147-89-CryptoPro-B-ParamSet,Gost28147-89-CryptoPro-C-ParamSet,Gost28147-89-\
    CryptoPro-D-ParamSet,,,GostR3410-94-CryptoPro-A-ParamSet,GostR3410-94-CryptoPro-B-ParamSet,\
    GostR3410-94-CryptoPro-C-ParamSet,GostR3410-94-CryptoPro-D-ParamSet,,GostR3410-94-CryptoPro-\
    XchA-ParamSet,GostR3410-94-CryptoPro-XchB-ParamSet,GostR3410-94-CryptoPro-XchC-ParamSet,\
    GostR3410-2001-TestParamSet,GostR3410-2001-CryptoPro-A-ParamSet,GostR3410-2001-CryptoPro-B-\
    ParamSet,GostR3410-2001-CryptoPro-C-ParamSet,GostR3410-2001-CryptoPro-XchA-ParamSet,GostR3410-\
    2001-CryptoPro-XchB-ParamSet,,holdinstruction-none,holdinstruction-callissuer,holdinstruction-\
    reject,,dsa,,dsa-with-sha1,,prime-field,characteristic-two-field,,ecPublicKey,,ecdsa-with-SHA1,\
    ecdsa-with-Recommended,ecdsa-with-Specified,,dhpublicnumber,,pkinit-authData,pkinit-DHKeyData,\
    pkinit-rkeyData,pkinit-KPClientAuth,pkinit-KPKdc,,mailbox-validated-legacy,mailbox-validated-\
    multipurpose,mailbox-validated-strict,,organization-validated-legacy,organization-validated-\
    multipurpose,organization-validated-strict,,sponsor-validated-legacy,sponsor-validated-\
    multipurpose,sponsor-validated-strict,,individual-validated-legacy,individual-validated-\
    multipurpose,individual-validated-strict,,sm4-ecb,sm4-cbc,sm4-ofb,sm4-cfb,,,,,,,,,,,,,,,,,,,,,,\
    ,,,,,,,,,,,,,,,,,,,,,,,,sm2,,,,,,,,,,,,,,,,,,sm3,,,,,,,,,,,,,,,,,,,,,,,,,,,,,,,,,,,,,,,,,,,,,,,\
    ,,,,,,,,,,,,,,,,,,,,,,,,,,,,,,,,,,,,,,,,,,,,,,,,,,,,,SM2-with-SM3,,,sm3WithRSAEncryption,,,,,\
    seedCBC,,INN,,tc26-gost3410-12-256,tc26-gost3410-12-512,,,tc26-gost3411-12-256,tc26-gost3411-\
    12-512,,,tc26-signwithdigest-gost3410-12-256,tc26-signwithdigest-gost3410-12-512,,tc26-hmac-\
    gost-3411-12-256,tc26-hmac-gost-3411-12-512,,tc26-agreement-gost-3410-12-256,tc26-agreement-\
    gost-3410-12-512,,,md2,,md4,md5,,hmacWithSHA1,hmacWithSHA224,hmacWithSHA256,hmacWithSHA384,\
    hmacWithSHA512,hmacWithSHA512-224,hmacWithSHA512-256,,,rc2CBC,,rc4,,,des-EDE3-CBC,,rc5-CBC-PAD,\
    ,c2pnb163v1,c2pnb163v2,c2pnb163v3,c2pnb176w1,c2tnb191v1,c2tnb191v2,c2tnb191v3,c2onb191v4,\
    c2onb191v5,c2pnb208w1,c2tnb239v1,c2tnb239v2,c2tnb239v3,c2onb239v4,c2onb239v5,c2pnb272w1,\
    c2pnb304w1,c2tnb359v1,c2pnb368w1,c2tnb431r1,,P-192,prime192v2,prime192v3,prime239v1,prime239v2,\
    prime239v3,P-256,,ecdsa-with-SHA224,ecdsa-with-SHA256,ecdsa-with-SHA384,ecdsa-with-SHA512,,\
    authorityInfoAccess,biometricInfo,qcStatements,ac-auditIdentity,,aaControls,ipAddrBlocks,\
    autonomousSysIds,,ac-proxying,subjectInfoAccess,logotype,wlanSSID,proxyCertInfo,,,,,,,,,,\
    tlsfeature,mud-url,TNAuthList,,ipAddrBlocks-v2,autonomousSysIds-v2,,acmeIdentifier,,cps,\
    unotice,,serverAuth,clientAuth,codeSigning,emailProtection,ipsecEndSystem,ipsecTunnel,\
    ipsecUser,timeStamping,OCSPSigning,dvcs,,,eapOverPPP,eapOverLAN,,,ipsecIKE,capwapAC,capwapWTP,\
    sipDomain,secureShellClient,secureShellServer,sendRouter,sendProxiedRouter,sendOwner,\
    sendProxiedOwner,cmcCA,cmcRA,cmcArchive,bgpsec-router,BrandIndicatorforMessageIdentification,\
    cmKGA,,,bundleSecurity,documentSigning,,caProtEncCert,signKeyPairTypes,encKeyPairTypes,\
    preferredSymmAlg,caKeyUpdateInfo,currentCRL,unsupportedOIDs,,,keyPairParamReq,keyPairParamRep,\
    revPassphrase,implicitConfirm,confirmWaitTime,origPKIMessage,suppLangTags,caCerts,\
    rootCaKeyUpdate,certReqTemplate,rootCaCert,certProfile,crlStatusList,crls,,,noSignature,,,,,,,,\
    ,,,,,,,,,,,,,,,,,,,,RSASSA-PSS-SHAKE128,RSASSA-PSS-SHAKE256,ecdsa-with-shake128,ecdsa-with-\
    shake256,xmss-hashsig,xmssmt-hashsig,,statusInfo,identification,identityProof,dataReturn,\
    transactionId,senderNonce,recipientNonce,addExtensions,encryptedPOP,decryptedPOP,lraPOPWitness,\
    ,,,getCert,getCRL,revokeRequest,regInfo,responseInfo,,queryPending,popLinkRandom,\
    popLinkWitness,confirmCertAcceptance,statusInfoV2,trustedAnchors,authData,batchRequests,\
    batchResponses,publishCert,modCertTemplate,controlProcessed,popLinkWitnessV2,identityProofV2,,,\
    ,permanentIdentifier,hardwareModuleName,xmppAddr,,dnsSRV,naiRealm,SmtpUTF8Mailbox,AcpNodeName,\
    bundleEID,,dateOfBirth,placeOfBirth,gender,countryOfCitizenship,countryOfResidence,,\
    authenticationInfo,accessIdentity,chargingIdentity,group,,encAttrs,,pkixQCSyntax-v1,\
    pkixQCSyntax-v2,,,PKIData,PKIResponse,,,ipAddr-asNumber,ipAddr-asNumber-v2,anyLanguage,\
    inheritAll,independent,,ocsp,caIssuers,timeStamping,dvcs,caRepository,,,,,rpkiManifest,\
    signedObject,,rpkiNotify,,HMAC-MD5,HMAC-SHA1,,,szOID_IPSEC_KP_IKE_INTERMEDIATE,,,,,,,pivFASC-N,\
    PIV-content-signing,PIV-cardAuth,,PK-DH,PK-ECDH,,IS,AT,ST,,aria128-ecb,aria128-cbc,aria128-cfb,\
    aria128-ofb,aria128-ctr,aria192-ecb,aria192-cbc,aria192-cfb,aria192-ofb,aria192-ctr,aria256-\
    ecb,aria256-cbc,aria256-cfb,aria256-ofb,aria256-ctr,,,,,,aria128-cmac,aria192-cmac,aria256-\
    cmac,,,,,,,,aria128-ocb2,aria192-ocb2,aria256-ocb2,aria128-gcm,aria192-gcm,aria256-gcm,aria128-\
    ccm,aria192-ccm,aria256-ccm,aria128-kw,aria192-kw,aria256-kw,aria128-kwp,aria192-kwp,aria256-\
    kwp,,tc26-gost-3410-2012-256-paramSetA,tc26-gost-3410-2012-256-paramSetB,tc26-gost-3410-2012-\
    256-paramSetC,tc26-gost-3410-2012-256-paramSetD,tc26-gost-3410-2012-512-paramSetTest,tc26-gost-\
    3410-2012-512-paramSetA,tc26-gost-3410-2012-512-paramSetB,tc26-gost-3410-2012-512-paramSetC,,\
    tc26-gost-28147-param-Z,,,,,,,,,,,cast5CBC,,,PasswordBasedMac,,,,,,,,,,,,,,,,,DHBasedMac,,\
    rsaEncryption,md2WithRSAEncryption,md4WithRSAEncryption,md5WithRSAEncryption,\
    sha1WithRSAEncryption,,RSAES-OAEP,mgf1,pSpecified,RSASSA-PSS,sha256WithRSAEncryption,\
    sha384WithRSAEncryption,sha512WithRSAEncryption,sha224WithRSAEncryption,sha512-\
    224WithRSAEncryption,sha512-256WithRSAEncryption,,dhKeyAgreement,,pbeWithMD2AndDES-CBC,,\
    pbeWithMD5AndDES-CBC,pbeWithMD2AndRC2-CBC,,pbeWithMD5AndRC2-CBC,,,,pbeWithSHA1AndDES-CBC,\
    pbeWithSHA1AndRC2-CBC,PBKDF2,PBES2,PBMAC1,,data,signedData,envelopedData,\
    signedAndEnvelopedData,digestedData,encryptedData,,emailAddress,unstructuredName,contentType,\
    messageDigest,signingTime,counterSignature,challengePassword,unstructuredAddress,\
    extendedCertificateAttributes,,,,signingDescription,extensionRequest,smimeCapabilities,,,,,\
    friendlyName,localKeyId,,,,,,,,,,,,,,,,,,,,,,,,,,,,,,,CMSAlgorithmProtection,,,krb5,,,,,,,,,\
    adbe-revocationInfoArchival,,gnBasis,tpBasis,ppBasis,,szOID_CTL,szOID_NEXT_UPDATE_LOCATION,,\
    szOID_RENEWAL_CERTIFICATE,,szOID_PKCS_12_KEY_PROVIDER_NAME_ATTR,szOID_LOCAL_MACHINE_KEYSET,,\
    szOID_AUTO_ENROLL_CTL_USAGE,szOID_ENROLL_CERTTYPE_EXTENSION,szOID_CERT_MANIFOLD,,\
    szOID_CERTSRV_CA_VERSION,szOID_CERTSRV_PREVIOUS_CERT_HASH,szOID_CRL_VIRTUAL_BASE,\
    szOID_CRL_NEXT_PUBLISH,szOID_KP_CA_EXCHANGE,szOID_KP_KEY_RECOVERY_AGENT,\
    szOID_CERTIFICATE_TEMPLATE,szOID_ENTERPRISE_OID_ROOT,szOID_RDN_DUMMY_SIGNER,\
    szOID_APPLICATION_CERT_POLICIES,szOID_APPLICATION_POLICY_MAPPINGS,\
    szOID_APPLICATION_POLICY_CONSTRAINTS,szOID_ARCHIVED_KEY_ATTR,szOID_CRL_SELF_CDP,\
    szOID_REQUIRE_CERT_CHAIN_POLICY,szOID_ARCHIVED_KEY_CERT_HASH,szOID_ISSUED_CERT_HASH,,\
    szOID_DS_EMAIL_REPLICATION,szOID_REQUEST_CLIENT_INFO,szOID_ENCRYPTED_KEY_HASH,\
    szOID_CERTSRV_CROSSCA_VERSION,,szOID_NTDS_REPLICATION,szOID_NTDS_CA_SECURITY_EXT,,,,,,,,,,,,,,,\
    ,,,,,,,,,,,,,,,,,,,,,,,,,,,,,,delegationUsage,,,,,,,,,,,,,,,,,,,,,,,,,,,,,,,,,,,,,,,,,,,,,,,,,,\
    ,,,,,,,,,,,,,,,,,,,,,,,,,,,,,,,,,,,,,,,dcObject,,,,,,,,,,,,scrypt,,regToken,authenticator,\
    pkiPublicationInfo,pkiArchiveOptions,oldCertID,protocolEncrKey,,utf8Pairs,certReq,,ocspBasic,\
    ocspNonce,ocspCrl,ocspResponse,ocspNocheck,ocspArchiveCutoff,ocspServiceLocator,\
    ocspPrefSigAlgs,ocspExtendedRevoke,,brainpoolP160r1,brainpoolP160t1,brainpoolP192r1,\
    brainpoolP192t1,brainpoolP224r1,brainpoolP224t1,brainpoolP256r1,brainpoolP256t1,\
    brainpoolP320r1,brainpoolP320t1,brainpoolP384r1,brainpoolP384t1,brainpoolP512r1,\
    brainpoolP512t1,,,dhSinglePass-stdDH-sha1kdf-scheme,dhSinglePass-cofactorDH-sha1kdf-scheme,,,,,\
    ,,,,,,,,mqvSinglePass-sha1kdf-scheme,,aes128-ECB,aes128-CBC,aes128-OFB,aes128-CFB,aes128-wrap,\
    aes128-GCM,aes128-CCM,aes128-wrap-pad,aes128-GMAC,,,,,,,,,,,,aes192-ECB,aes192-CBC,aes192-OFB,\
    aes192-CFB,aes192-wrap,aes192-GCM,aes192-CCM,aes192-wrap-pad,aes192-GMAC,,,,,,,,,,,,aes256-ECB,\
    aes256-CBC,aes256-OFB,aes256-CFB,aes256-wrap,aes256-GCM,aes256-CCM,aes256-wrap-pad,aes256-GMAC,\
    ,sha256,sha384,sha512,sha224,sha512-224,sha512-256,sha3-224,sha3-256,sha3-384,sha3-512,\
    shake128,shake256,hmacWithSHA3-224,hmacWithSHA3-256,hmacWithSHA3-384,hmacWithSHA3-512,shake128-\
    len,shake256-len,KMACWithSHAKE128,KMACWithSHAKE256,,dsa-with-sha224,dsa-with-sha256,dsa-with-\
    sha384,dsa-with-sha512,dsa-with-sha3-224,dsa-with-sha3-256,dsa-with-sha3-384,dsa-with-sha3-512,\
    ecdsa-with-sha3-224,ecdsa-with-sha3-256,ecdsa-with-sha3-384,ecdsa-with-sha3-512,rsassa-pkcs1-\
    v1-5-with-sha3-224,rsassa-pkcs1-v1-5-with-sha3-256,rsassa-pkcs1-v1-5-with-sha3-384,rsassa-\
    pkcs1-v1-5-with-sha3-512,ml-dsa-44,ml-dsa-65,ml-dsa-87,slh-dsa-sha2-128s,slh-dsa-sha2-128f,slh-\
    dsa-sha2-192s,slh-dsa-sha2-192f,slh-dsa-sha2-256s,slh-dsa-sha2-256f,slh-dsa-shake-128s,slh-dsa-\
    shake-128f,slh-dsa-shake-192s,slh-dsa-shake-192f,slh-dsa-shake-256s,slh-dsa-shake-256f,hash-ml-\
    dsa-44-with-sha512,hash-ml-dsa-65-with-sha512,hash-ml-dsa-87-with-sha512,hash-slh-dsa-sha2-\
    128s-with-sha256,hash-slh-dsa-sha2-128f-with-sha256,hash-slh-dsa-sha2-192s-with-sha512,hash-\
    slh-dsa-sha2-192f-with-sha512,hash-slh-dsa-sha2-256s-with-sha512,hash-slh-dsa-sha2-256f-with-\
    sha512,hash-slh-dsa-shake-128s-with-shake128,hash-slh-dsa-shake-128f-with-shake128,hash-slh-\
    dsa-shake-192s-with-shake256,hash-slh-dsa-shake-192f-with-shake256,hash-slh-dsa-shake-256s-\
    with-shake256,hash-slh-dsa-shake-256f-with-shake256,,alg-ml-kem-512,alg-ml-kem-768,alg-ml-kem-\
    1024,,netscape-cert-type,netscape-base-url,netscape-revocation-url,netscape-ca-revocation-url,,\
    ,netscape-cert-renewal-url,netscape-ca-policy-url,,,,netscape-ssl-server-name,netscape-comment,\
    ,,,,,netscape-cert-sequence,,ecdsa-plain-SHA1,ecdsa-plain-SHA224,ecdsa-plain-SHA256,ecdsa-\
    plain-SHA384,ecdsa-plain-SHA512,ecdsa-plain-RIPEMD160,,TA-ECDSA-SHA-1,TA-ECDSA-SHA-224,TA-\
    ECDSA-SHA-256,TA-ECDSA-SHA-384,TA-ECDSA-SHA-512,,CA-ECDH-3DES-CBC-CBC,CA-ECDH-AES-CBC-CMAC-128,\
    CA-ECDH-AES-CBC-CMAC-192,CA-ECDH-AES-CBC-CMAC-256,,PACE-ECDH-GM-3DES-CBC-CBC,PACE-ECDH-GM-AES-\
    CBC-CMAC-128,PACE-ECDH-GM-AES-CBC-CMAC-192,PACE-ECDH-GM-AES-CBC-CMAC-256,,userId,\
    textEncodedORAddress,mail,info,drink,roomNumber,photo,userClass,host,manager,\
    documentIdentifier,documentTitle,documentVersion,documentAuthor,documentLocation,,,,,homePhone,\
    secretary,otherMailbox,lastModifiedTime,lastModifiedBy,domainComponent,aRecord,mDRecord,\
    mXRecord,nSRecord,sOARecord,cNAMERecord,,,,,,associatedDomain,associatedName,homePostalAddress,\
    personalTitle,mobile,pager,co,uniqueIdentifier,organizationalStatus,janetMailbox,\
    mailPreferenceOption,buildingName,dSAQuality,singleLevelQuality,subtreeMinimumQuality,\
    subtreeMaximumQuality,personalSignature,dITRedirect,audio,documentPublisher,,,,pilotObject,\
    pilotPerson,account,document,room,,documentSeries,,,,domain,rFC822LocalPart,dNSDomain,,\
    domainRelatedObject,friendlyCountry,simpleSecurityObject,pilotOrganization,pilotDSA,\
    qualityLabelledData,,npki-app-cmsSeed-wrap,,preferSignedData,canNotDecryptAny,\
    sMIMECapabilitiesVersions,,x509Certificate,sdsiCertificate,,x509CRL,,pkcsEntity,naturalPerson,,\
    pkcs15Token,encryptedPrivateKeyInfo,randomNonce,sequenceNumber,pkcs7PDU,,\
    pbeWithSHAAnd128BitRC4,pbeWithSHAAnd40BitRC4,pbeWithSHAAnd3-KeyTripleDES-CBC,pbeWithSHAAnd2-\
    KeyTripleDES-CBC,pbeWithSHAAnd128BitRC2-CBC,pbeWithSHAAnd40BitRC2-CBC,,,,,,,,,,,,,,,,,,,,,,,,,,\
    ,,,,,,,,,,,,,,,,,,,,,,,,,,,,,,,,,,,,,,pagedResultsControl,,,,,SPC_INDIRECT_DATA_OBJID,,,,,,\
    SPC_SP_AGENCY_INFO_OBJID,SPC_STATEMENT_TYPE_OBJID,SPC_SP_OPUS_INFO_OBJID,,\
    szOID_CERT_EXTENSIONS,SPC_PE_IMAGE_DATA_OBJID,,,SPC_RAW_FILE_DATA_OBJID,\
    SPC_STRUCTURED_STORAGE_DATA_OBJID,SPC_JAVA_CLASS_DATA_OBJID,\
    SPC_INDIVIDUAL_SP_KEY_PURPOSE_OBJID,SPC_COMMERCIAL_SP_KEY_PURPOSE_OBJID,,,SPC_CAB_DATA_OBJID,\
    SPC_MINIMAL_CRITERIA_OBJID,SPC_FINANCIAL_CRITERIA_OBJID,SPC_LINK_OBJID,,SPC_SIGINFO_OBJID,,\
    SPC_TIME_STAMP_REQUEST_OBJID,,SPC_RFC3161_OBJID,,szOID_SORTED_CTL,,szOID_KP_CTL_USAGE_SIGNING,\
    szOID_KP_TIME_STAMP_SIGNING,szOID_SERVER_GATED_CRYPTO,szOID_KP_EFS,szOID_WHQL_CRYPTO,\
    szOID_NT5_CRYPTO,szOID_OEM_WHQL_CRYPTO,szOID_EMBEDDED_NT_CRYPTO,szOID_ROOT_LIST_SIGNER,\
    szOID_KP_QUALIFIED_SUBORDINATION,szOID_KP_KEY_RECOVERY,szOID_KP_DOCUMENT_SIGNING,\
    szOID_KP_LIFETIME_SIGNING,,szOID_YESNO_TRUST_ATTR,,szOID_DRM,,szOID_LICENSES,\
    szOID_LICENSE_SERVER,,szOID_REMOVE_CERTIFICATE,,szOID_CROSS_CERT_DIST_POINTS,,\
    szOID_CMC_ADD_ATTRIBUTES,,szOID_ENROLLMENT_NAME_VALUE_PAIR,szOID_ENROLLMENT_CSP_PROVIDER,\
    szOID_OS_VERSION,,szOID_ENROLLMENT_AGENT,szOID_KP_SMARTCARD_LOGON,szOID_NT_PRINCIPAL_NAME,,,,,,\
    ,,,,,,,,,,,,,,,,,,,,,,,,,,,,,,,,,,,,,,,,,,,,,,,,,,,,,,,,,,,,,,,,startTLS,,,\
    signedCertificateTimestamps,precertificatePoison,precertificateSigning,,fpki-certpcy-\
    rudimentaryAssurance,fpki-certpcy-basicAssurance,fpki-certpcy-mediumAssurance,fpki-certpcy-\
    highAssurance,,fpki-common-policy,fpki-common-hardware,fpki-common-devices,,,,,fpki-common-\
    authentication,,,fpki-common-High,fpki-common-cardAuth,,carLicense,departmentNumber,\
    employeeNumber,employeeType,,,,,,,,,,,,,,,,,,,,,,,,,,,,,,,,,,,preferredLanguage,\
    userSMIMECertificate,,,inetOrgPerson,,,messageType,pkiStatus,failInfo,senderNonce,\
    recipientNonce,transactionID,,,camellia128-cbc,camellia192-cbc,camellia256-cbc,,,camellia128-\
    wrap,camellia192-wrap,camellia256-wrap,,receipt,authData,,TSTInfo,,contentInfo,,,\
    compressedData,,,,,,,firmwarePackage,firmwareLoadReceipt,firmwareLoadError,contentCollection,\
    contentWithAttrs,encKeyWithID,,authEnvelopedData,routeOriginAuthz,,rpkiManifest,\
    asciiTextWithCRLF,xml,pdf,postscript,timestampedData,,,,rpkiGhostbusters,,receiptRequest,\
    securityLabel,mlExpandHistory,contentHint,msgSigDigest,,contentIdentifier,,equivalentLabels,\
    contentReference,encrypKeyPref,signingCertificate,,timeStampToken,ets-sigPolicyId,ets-\
    commitmentType,ets-signerLocation,ets-signerAttr,ets-otherSigCert,ets-contentTimestamp,ets-\
    certificateRefs,ets-revocationRefs,ets-certValues,ets-revocationValues,ets-escTimeStamp,ets-\
    certCRLTimestamp,ets-archiveTimestamp,,,,,,,,firmwarePackageID,targetHardwareIDs,decryptKeyID,\
    implCryptoAlgs,wrappedFirmwareKey,communityIdentifiers,fwPkgMessageDigest,firmwarePackageInfo,\
    implCompressAlgs,,,,signingCertificateV2,ets-archiveTimestampV2,,,,,,ESDH,CMS3DESwrap,\
    CMSRC2wrap,zlibCompress,PWRI-KEK,SSDH,,,,rsa-kem,,,hss-lms-hashsig,AEADChaCha20Poly1305,,,,,,,,\
    ,,hkdf-with-sha256,hkdf-with-sha384,hkdf-with-sha512,,ets-uri,ets-unotice,,ets-proofOfOrigin,\
    ets-proofOfReceipt,ets-proofOfDelivery,ets-proofOfSender,ets-proofOfApproval,ets-\
    proofOfCreation,,preferBinaryInside,,keyBag,pkcs8ShroudedKeyBag,certBag,crlBag,secretBag,\
    safeContentsBag,,szOID_EFS_RECOVERY,,jurisdictionLocalityName,jurisdictionStateOrProvinceName,\
    jurisdictionCountryName,,,,,fido-gen-ce-aaguid,,,,,,blake2b160,,,blake2b256,,,,blake2b384,,,,\
    blake2b512,,,,,blake2s128,blake2s160,,blake2s224,blake2s256,,,,,,,,,,,,,,,,,,,,,,,,,,,,,,,,,,,,\
    ,,,,,,,,,,,,,,,,,,,,,,,,,,,,,,,,,,,,,,,,,,,,,,,,,,,,,userPKCS12,,,,,,,,,,,,,,,,,,,,,,,,,\
    displayName,\
";
