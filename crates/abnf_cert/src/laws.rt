//! Laws of certificates and of their texts. The functions do nothing.

ghost use Rattle.abnf_cert.specs.Agreed.{AcceptedAgree};
ghost use Rattle.abnf_cert.specs.Says.{AcceptedIsRight};
ghost use Rattle.abnf_cert.specs.Read.{TextsAreRead, TextsAreUnique};

/// Each entry of an accepted certificate is right, for any grammar and whoever made the certificate. "Nothing" stands
/// only where the part generates no string. A length below 18446744073709551615 is the least length, with the least
/// number of nested references for it. That number itself stands only where the part generates a string, and none
/// shorter.
pub fn accepted_is_right()
    ensures { AcceptedIsRight }
{}

/// Two accepted certificates of a grammar have as many entries, and agree but for heights and choices where a length is
/// the greatest, 18446744073709551615.
pub fn accepted_agree()
    ensures { AcceptedAgree }
{}

/// A certificate has one text: what reads as the certificate is what is written of it.
pub fn texts_are_unique()
    ensures { TextsAreUnique }
{}

/// The text of a certificate reads as that certificate, and as no other.
pub fn texts_are_read()
    ensures { TextsAreRead }
{}
