//! What the commands of the program say of a text.

ghost use Rattle.std.specs.Prelude.{◌≡◌, ◌≢◌, ◌∷◌, ◌++◌, [], Err, IfErr, IfOk, List, string_bytes};
ghost use Rattle.abnf_cert.specs.declared.entry.Entry.{Entry};
ghost use Rattle.abnf_cert.specs.declared.fault.CertFault.{CertFault};
ghost use Rattle.abnf_cert.specs.Read.{IsFirstFault, IsLineFault, IsOf64Bits};
ghost use Rattle.abnf_cert.specs.Text.{cert_text};
ghost use Rattle.abnf_names.specs.Rules.{IsGrammar};
ghost use Rattle.ls_program.specs.Commands.{IsChecked, IsExampleIn, IsExampleText, cert_part};

use abnf_cert::{Cert, CertFault, check, read_cert, write_cert};
use abnf_least::least;
use abnf_names::Grammar;
use abnf_token::Folded;
use ls_answers::hover_text;
use ls_text::Snapshot;
use std::alloc::{AllocError as Memory, Global};

/// The part of a certificate's file that is read: what follows the first empty line, or all where there is none. So what [`example_text`]
/// gives can be read as it is. An empty line is an LF right behind another, or at the first byte.
pub fn cert_part(bytes: &[u8]) -> &[u8]
    ensures { result.now ≡ cert_part bytes.now }
{
    let mut before = b'\n';
    for (at, byte) in bytes.iter().enumerate() {
        if before == b'\n' && *byte == b'\n' {
            return &bytes[at + 1..];
        }
        before = *byte;
    }
    bytes
}

/// The grammar of a text.
fn grammar_of(alloc: Global, snapshot: &Snapshot) -> Result<Grammar<'_>, Memory>
    ensures text { IfOk result (λ grammar. grammar.text ≡ snapshot.entry.now) }
    ensures grammar { IfOk result (λ grammar. IsGrammar grammar) }
{
    let grammar = Grammar::of(alloc, snapshot)?;
    // What is known of a grammar is said by the call for its text.
    let _known = grammar.source();
    Ok(grammar)
}

/// What is shown of a rule, an empty line, and the text of a certificate.
fn with_cert(alloc: Global, shown: String, cert: &Cert) -> Result<String, Memory>
    ensures { IfOk result (λ text. string_bytes text ≡ string_bytes shown ++ 10 ∷ 10 ∷ [] ++ cert_text cert.now) }
{
    let entries = write_cert(alloc, cert)?;
    let mut text = shown;
    text.push_str("\n\n")?;
    text.push_str(entries.as_str())?;
    Ok(text)
}

/// What is shown of the rule of a grammar that has this name, and a certificate.
fn example_in(alloc: Global, grammar: &Grammar, rule: &str) -> Result<String, Memory>
    ensures { IfOk result (λ text. IsExampleIn grammar.now rule.now (string_bytes text)) }
{
    let cert = least(alloc, grammar)?;
    let shown = hover_text(alloc, grammar, &cert, grammar.rule_of(Folded(rule)))?;
    with_cert(alloc, shown, &cert)
}

/// What is known of the shortest strings of a rule, and a certificate for it: the text of [`hover_text`] for the rule that the name stands
/// for, an empty line, and the text of a certificate that [`check`] accepts. Names are read without case; a core rule that no rule of the
/// text needs has none. The certificate is searched for the whole text.
///
/// # Errors
///
/// Where an allocation is refused.
pub fn example_text(alloc: Global, snapshot: &Snapshot, rule: &str) -> Result<String, Memory>
    ensures { IfOk result (λ text. IsExampleText snapshot.now rule.now (string_bytes text)) }
{
    let grammar = grammar_of(alloc, snapshot)?;
    example_in(alloc, &grammar, rule)
}

/// Whether the [`cert_part`] of these bytes is the text of a certificate that [`check`] accepts for the grammar of a text. With true each
/// of its entries is right of the strings that its part generates. False: it is the text of another certificate with numbers of 64 bits.
///
/// # Errors
///
/// The fault of [`read_cert`], that of the first faulty line, and `Memory` where an allocation is refused. None is asked for where the
/// first line of all is faulty.
pub fn check_text(alloc: Global, snapshot: &Snapshot, cert: &[u8]) -> Result<bool, CertFault>
    ensures answer { IfOk result (λ yes. IsChecked snapshot.now cert.now yes) }

    // The text of a certificate is read as it, unless memory runs out.
    ensures only { (es : List Entry) → IsOf64Bits es → cert_part cert.now ≡ cert_text es
        → IfErr result (λ fault. fault ≡ CertFault.Memory) }

    // Which fault it is, of what can't be read. That of the first line is found before memory is asked for.
    ensures fault { IfErr result (λ fault. fault ≢ CertFault.Memory → IsFirstFault fault (cert_part cert.now)) }
    ensures first { (fault : CertFault) → fault ≢ CertFault.Memory → IsLineFault fault 0 (cert_part cert.now) → result ≡ Err fault }
{
    let cert = read_cert(alloc, cert_part(cert))?;
    match grammar_of(alloc, snapshot) {
        Ok(grammar) => Ok(check(&grammar, &cert)),
        Err(_) => Err(CertFault::Memory),
    }
}
