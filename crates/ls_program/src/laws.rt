//! Laws of what the commands say.
ghost use Rattle.ls_program.specs.Commands.{ExampleTextsAreAccepted, ExampleTextsExist};

/// Each text of fewer than 2^62 characters has an example for each name, also for one that stands for no rule.
pub fn example_texts_exist()
    ensures { ExampleTextsExist }
{}

/// A check of an example, for the text that it was made for, says yes: it is the text of an accepted certificate behind its first empty
/// line. The numbers of the certificate must be of 64 bits, as those of a [`Cert`](abnf_cert::Cert) are.
pub fn example_texts_are_accepted()
    ensures { ExampleTextsAreAccepted }
{}
