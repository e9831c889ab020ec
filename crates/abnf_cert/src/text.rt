//! The writing of a certificate's text.

ghost use Rattle.std.specs.Prelude.{◌≡◌, ◌++◌, IfOk, OnOk, string_bytes};
ghost use Rattle.std.specs.Fmt.{decimal};
ghost use Rattle.abnf_cert.specs.declared.entry.Entry.TheVariants.{Least};
ghost use Rattle.abnf_cert.specs.Text.{entry_line, cert_text};

use crate::entry::{Cert, Entry};
use std::alloc::{AllocError, Global};

/// Appends a number and what stands behind it.
fn push_number(text: &mut String, alloc: Global, number: u64, end: &str) -> Result<(), AllocError>
    ensures { OnOk result (string_bytes text.new ≡ string_bytes text.old ++ decimal number ++ end.now) }
{
    let digits = format!(in alloc; "{}", number)?;
    text.push_str(digits.as_str())?;
    text.push_str(end)?;
    Ok(())
}

/// Appends the line of an entry.
fn push_line(
    text: &mut String,
    alloc: Global,
    number: usize,
    entry: Entry,
) -> Result<(), AllocError>
    ensures { OnOk result (string_bytes text.new ≡ string_bytes text.old ++ entry_line number entry) }
{
    match entry {
        Entry::Nothing => push_number(text, alloc, number as u64, " -\n"),
        Entry::Least {
            length,
            height,
            choice,
        } => push_least(text, alloc, number, length, height, choice),
    }
}

fn push_least(
    text: &mut String,
    alloc: Global,
    number: usize,
    length: u64,
    height: u64,
    choice: u64,
) -> Result<(), AllocError>
    ensures { OnOk result (string_bytes text.new ≡ string_bytes text.old ++ entry_line number (Least length height choice)) }
{
    push_number(text, alloc, number as u64, " ")?;
    push_number(text, alloc, length, " ")?;
    push_number(text, alloc, height, " ")?;
    push_number(text, alloc, choice, "\n")?;
    Ok(())
}

/// The text of a certificate, which [`read_cert`](crate::read_cert) reads: a line for each entry. Time goes by their
/// number.
///
/// # Errors
///
/// Where an allocation is refused.
pub fn write_cert(alloc: Global, cert: &Cert) -> Result<String, AllocError>
    ensures { IfOk result (λ s. string_bytes s ≡ cert_text cert.now) }
{
    let mut text = String::new(alloc);
    for (number, entry) in cert.entries().iter().enumerate() {
        push_line(&mut text, alloc, number, *entry)?;
    }
    Ok(text)
}
