//! The reading of a certificate's text.

ghost use Rattle.std.specs.Prelude.{◌≡◌, ◌≢◌, ◌++◌, ◌<◌, ◌≤◌, IfOk, IfErr, MatchOption, MatchResult, List, ◌^◌, length, min, option_map, true, false};
ghost use Rattle.std.specs.List.{list_all, AllByRecursion};
ghost use Rattle.abnf_cert.specs.declared.entry.Entry.{Entry};
ghost use Rattle.abnf_cert.specs.declared.fault.CertFault.TheVariants.{Memory};
ghost use Rattle.std.specs.Char.{is_ascii_digit};
ghost use Rattle.std.specs.Str.Parse.{digits_value};
ghost use Rattle.abnf_cert.specs.Text.{cert_text};
ghost use Rattle.abnf_cert.specs.Read.{digit_count, is_plain_number, number_at, past_byte, told_at, rest_at, line_read, entry_told, IsOf64Bits, IsWide, IsFirstFault, IsLineFault};
ghost use Rattle.abnf_cert.specs.declared.fault.CertFault.{CertFault};

use crate::entry::{Cert, Entry};
use crate::fault::CertFault;
use std::alloc::Global;

/// One more than the greatest number of 64 bits.
const LIMIT: u128 = 18446744073709551616;

/// How many digits stand at the front.
fn count_digits(bytes: &[u8]) -> usize
    ensures count { result ≡ digit_count bytes.now }
    ensures within { result ≤ length bytes.now }
{
    let mut count = 0;
    'digits: while count < bytes.len() && bytes[count].is_ascii_digit() {
        count += 1;
    }
    count
}

fn is_without_zero(digits: &[u8]) -> bool
    ensures { result ≡ is_plain_number digits.now }
{
    match digits {
        [] => false,
        [_] => true,
        [first, _, ..] => *first != b'0',
    }
}

fn behind_byte(byte: u8, bytes: &[u8]) -> Option<&[u8]>
    ensures { option_map (λ x. x.now) result ≡ past_byte byte bytes.now }
{
    match bytes {
        [] => None,
        [first, rest @ ..] => { if *first == byte { Some(rest) } else { None } }
    }
}

/// The number that the digits write, or 2 ^ 64 where it is larger.
fn value_of(digits: &[u8]) -> Option<u128>
    ensures { MatchOption result (list_all is_ascii_digit digits.now ≡ false)
        (λ n. (list_all is_ascii_digit digits.now ≡ true) × (n ≡ min (digits_value 10 digits.now) 18446744073709551616)) }
{
    let mut number = 0;
    for digit in digits {
        if !digit.is_ascii_digit() {
            return None;
        }
        number = (number * 10 + u128::from(*digit - b'0')).min(LIMIT);
    }
    Some(number)
}

/// The number at the front, and the bytes behind it.
fn number_in(bytes: &[u8]) -> Option<(u128, &[u8])>
    ensures { option_map (λ x. (x.0, x.1.now)) result ≡ number_at bytes.now }
{
    let count = count_digits(bytes);
    let digits = &bytes[..count];
    if !is_without_zero(digits) {
        return None;
    }
    match value_of(digits) {
        Some(number) => Some((number, &bytes[count..])),
        None => None,
    }
}

/// What a line says of its node: nothing, or a length, a height and a choice.
type Told = Option<(u128, u128, u128)>;

/// Three numbers with a blank between, and the line's end.
#[tactic(auto, unfolding(crate::specs::Read::told_at))]
fn numbers_in(bytes: &[u8]) -> Option<(Told, &[u8])>
    ensures { option_map (λ x. (x.0, x.1.now)) result ≡ told_at bytes.now }
{
    let (length, rest) = number_in(bytes)?;
    let rest = behind_byte(b' ', rest)?;
    let (height, rest) = number_in(rest)?;
    let rest = behind_byte(b' ', rest)?;
    let (choice, rest) = number_in(rest)?;
    let rest = behind_byte(b'\n', rest)?;
    Some((Some((length, height, choice)), rest))
}

/// What a line says behind its number.
fn rest_in(bytes: &[u8]) -> Option<(Told, &[u8])>
    ensures { option_map (λ x. (x.0, x.1.now)) result ≡ rest_at bytes.now }
{
    match bytes {
        [] => None,
        [first, rest @ ..] => {
            if *first == b'-' {
                let rest = behind_byte(b'\n', rest)?;
                Some((None, rest))
            } else {
                numbers_in(bytes)
            }
        }
    }
}

/// The line at the front.
#[tactic(auto, unfolding(crate::specs::Read::line_read))]
fn line_in(bytes: &[u8]) -> Option<(u128, Told, &[u8])>
    ensures { option_map (λ x. (x.0, x.1, x.2.now)) result ≡ line_read bytes.now }
{
    let (number, rest) = number_in(bytes)?;
    let rest = behind_byte(b' ', rest)?;
    let (told, rest) = rest_in(rest)?;
    Some((number, told, rest))
}

/// The entry that a line says, if its numbers are of 64 bits.
fn told_entry(told: Told) -> Option<Entry>
    ensures { result ≡ entry_told told }
{
    match told {
        None => Some(Entry::Nothing),
        Some((length, height, choice)) => {
            if length < LIMIT && height < LIMIT && choice < LIMIT {
                Some(Entry::Least {
                    length: length as u64,
                    height: height as u64,
                    choice: choice as u64,
                })
            } else {
                None
            }
        }
    }
}

fn read_lines(alloc: Global, bytes: &[u8]) -> Result<Cert, CertFault>
    ensures found { IfOk result (λ c. AllByRecursion IsWide c × (length c < 2 ^ 64) × (bytes.now ≡ cert_text c)) }
    ensures fault { IfErr result (λ f. IsFirstFault f bytes.now) }
{
    let mut entries = Vec::new(alloc);
    let mut rest = bytes;
    while !rest.is_empty() {
        let Some((number, told, behind)) = line_in(rest) else {
            return Err(CertFault::BadLine);
        };
        if number != entries.len() as u128 {
            return Err(CertFault::OutOfOrder);
        }
        let Some(entry) = told_entry(told) else {
            return Err(CertFault::NumberTooLarge);
        };
        if entries.push(entry).is_err() {
            return Err(CertFault::Memory);
        }
        rest = behind;
    }
    Ok(Cert::new(entries))
}

/// The certificate that the bytes are the text of: one line per node, in their order, each ended by LF. A line is `I -`
/// for [`Entry::Nothing`] or `I L H C` for a length, a height and a choice, where I counts the lines from 0. Numbers are
/// decimal without leading zeros, and one blank stands between them. Time goes by the bytes.
///
/// # Errors
///
/// The fault of the first faulty line, and of two that it shows the one that stands first in [`CertFault`]; `Memory`
/// where an allocation is refused, which is asked for at the line of an entry alone.
pub fn read_cert(alloc: Global, bytes: &[u8]) -> Result<Cert, CertFault>
    ensures found { IfOk result (λ c. IsOf64Bits c × (bytes.now ≡ cert_text c)) }

    // The text of a certificate is read as it, unless memory runs out.
    ensures only { (es : List Entry) → IsOf64Bits es → bytes.now ≡ cert_text es
        → MatchResult result (λ c. c ≡ es) (λ f. f ≡ Memory) }

    // Which fault it is. That of the first line is found before memory is asked for.
    ensures fault { IfErr result (λ f. IsFirstFault f bytes.now) }
    ensures first { (f : CertFault) → f ≢ Memory → IsLineFault f 0 bytes.now → result ≡ Err f }
{
    read_lines(alloc, bytes)
}
