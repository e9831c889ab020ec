//! `abnf_cert`: certificates of least lengths.

use abnf_cert::{Cert, CertFault, Entry};
use abnf_names::Grammar;
use std::alloc::{AllocError as Memory, Global};

pub fn entry_nothing() -> Entry {
    Entry::Nothing
}

pub fn entry_least(length: u64, height: u64, choice: u64) -> Entry {
    Entry::Least {
        length,
        height,
        choice,
    }
}

pub fn entry_kind(entry: Entry) -> u8 {
    match entry {
        Entry::Nothing => 0,
        Entry::Least {
            length: _,
            height: _,
            choice: _,
        } => 1,
    }
}

pub fn cert(entries: Vec<Entry>) -> Cert {
    Cert::new(entries)
}

pub fn entries(cert: &Cert) -> &[Entry] {
    cert.entries()
}

pub fn check(grammar: &Grammar<'_>, cert: &Cert) -> bool {
    abnf_cert::check(grammar, cert)
}

pub fn write_cert(alloc: Global, cert: &Cert) -> Result<String, Memory> {
    abnf_cert::write_cert(alloc, cert)
}

pub fn read_cert(alloc: Global, bytes: &[u8]) -> Result<Cert, CertFault> {
    abnf_cert::read_cert(alloc, bytes)
}

pub const CERT_FAULTS: [CertFault; 4] = [
    CertFault::BadLine,
    CertFault::OutOfOrder,
    CertFault::NumberTooLarge,
    CertFault::Memory,
];

pub fn cert_fault_number(fault: CertFault) -> u8 {
    match fault {
        CertFault::BadLine => 1,
        CertFault::OutOfOrder => 2,
        CertFault::NumberTooLarge => 3,
        CertFault::Memory => 4,
    }
}
