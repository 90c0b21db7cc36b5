//! Laws of certificates. Each function does nothing: its contract is the law.

ghost use Rattle.image_audit.specs.Accepted.{AuditsAreAccepted};
ghost use Rattle.image_audit.specs.Auditing.{ObjectsHaveCertificates};
ghost use Rattle.image_audit.specs.Certificate.{CertificatesHold, CertificatesHoldInStores};
ghost use Rattle.image_audit.specs.Checking.{AcceptedAreCertificates};

/// What a certificate says holds in every store that was read under its block of the card, or they clash.
pub fn certificates_hold_in_stores()
    ensures { CertificatesHoldInStores }
{}

/// What a certificate says holds in every picture with its block of the card that mounts, or they clash.
pub fn certificates_hold()
    ensures { CertificatesHold }
{}

/// What a check accepts is a certificate.
pub fn accepted_are_certificates()
    ensures { AcceptedAreCertificates }
{}

/// A sound object without bad blocks has a certificate that is accepted.
pub fn objects_have_certificates()
    ensures { ObjectsHaveCertificates }
{}

/// What is made of a sound object without bad blocks, whose files read as a store's images, is accepted.
pub fn audits_are_accepted()
    ensures { AuditsAreAccepted }
{}
