//! Calls about the certificates of a grammar: its own, others that aren't accepted, and texts that aren't read. Each is made once more where
//! memory is refused.

use crate::single::of;
use abnf_cert::{CertFault, read_cert};
use ls_server::{check_text, example_text};
use ls_text::Snapshot;
use std::alloc::Global;
use std::io;

const GRAMMAR: &str = "a = b / \"x\"\nb = a";

const EXAMPLE: &str =
    "shortest length 1\nexample x\n\n0 1 0 1\n1 1 2 0\n2 1 0 0\n3 1 1 0\n4 1 1 0\n";

const CERTS: [&[u8]; 8] = [
    b"0 1 0 1\n1 1 2 0\n2 1 0 0\n3 1 1 0\n4 1 1 0\n",
    // Not accepted: a length that is too small, nothing where there is something, a height that is too great, and an entry too few.
    b"0 0 0 1\n1 1 2 0\n2 1 0 0\n3 1 1 0\n4 1 1 0\n",
    b"0 1 0 1\n1 1 2 0\n2 1 0 0\n3 1 1 0\n4 -\n",
    b"0 1 0 1\n1 1 3 0\n2 1 0 0\n3 1 1 0\n4 1 1 0\n",
    b"0 1 0 1\n1 1 2 0\n2 1 0 0\n3 1 1 0\n",
    // Not read: a line is missing, a number begins with 0, and one is too large.
    b"0 1 0 1\n1 1 2 0\n3 1 1 0\n4 1 1 0\n",
    b"0 01 0 1\n1 1 2 0\n2 1 0 0\n3 1 1 0\n4 1 1 0\n",
    b"0 18446744073709551616 0 1\n1 1 2 0\n2 1 0 0\n3 1 1 0\n4 1 1 0\n",
];

// How many entries a certificate has, by its text.
fn entries(alloc: Global, cert: &[u8]) -> Result<usize, CertFault> {
    Ok(read_cert(alloc, cert)?.entries().len())
}

fn checked(alloc: Global, cert: &[u8]) -> Result<bool, CertFault> {
    check_text(alloc, &grammar(alloc)?, cert)
}

fn grammar(alloc: Global) -> Result<Snapshot, CertFault> {
    of(alloc, GRAMMAR).map_err(|_| CertFault::Memory)
}

fn cert(rt: &HostRuntime, cert: &[u8]) -> io::Result<()> {
    let alloc = rt.alloc();
    let entries = match entries(alloc, cert) {
        Err(CertFault::Memory) => self::entries(alloc, cert),
        read => read,
    };
    let checked = match checked(alloc, cert) {
        Err(CertFault::Memory) => self::checked(alloc, cert),
        answer => answer,
    };
    println!(rt; "read_cert: {entries:?}")?;
    println!(rt; "check_text: {checked:?}")
}

fn is_example(alloc: Global) -> Result<bool, CertFault> {
    match example_text(alloc, &grammar(alloc)?, "a") {
        Ok(example) => Ok(example.as_str() == EXAMPLE),
        Err(_) => Err(CertFault::Memory),
    }
}

/// Makes the calls, and prints what they answer.
pub fn told(rt: &HostRuntime) -> io::Result<()> {
    let alloc = rt.alloc();
    for text in CERTS {
        cert(rt, text)?;
    }
    let example = match is_example(alloc) {
        Err(CertFault::Memory) => is_example(alloc),
        answer => answer,
    };
    println!(rt; "example_text: {example:?}")
}
