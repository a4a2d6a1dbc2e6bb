// What a clean dump has, for a reader to believe and a caller to learn.
ghost use Rattle.kc_cert.specs.Complete.{CleanIsCertified, ShapedKinds};
ghost use Rattle.kc_cert.specs.Single.{CertificatesAreOne, ShapesAreOne};

use crate::shapes::know_kinds;

/// Does nothing. A clean dump has a certificate, with the counts of its verdict, where what is walked of its plan's kinds has
/// shapes; what is walked of each kind has.
pub fn know_complete()
    ensures complete { CleanIsCertified }
    ensures kinds { ShapedKinds }
{
    know_kinds();
}

/// Does nothing. A structure has one shape, and so a clean dump one certificate.
pub fn know_single()
    ensures shapes { ShapesAreOne }
    ensures certificates { CertificatesAreOne }
{
    know_kinds();
}
