//! Entries, and the certificates that they make.

ghost use Rattle.std.specs.Prelude.{◌≡◌};

use std::marker::Model;

/// What a certificate says of a node.
#[derive(Clone, Copy, Debug, PartialEq, Eq)]
pub enum Entry {
    /// The node generates no string.
    Nothing,
    /// The node generates a string of this length and none that is shorter.
    Least {
        /// In characters. 18446744073709551615 says that no string is shorter than that.
        length: u64,
        /// The least number of nested references with which a string of that length is generated.
        height: u64,
        /// At an `Alt` the index, from 0, of a part that has the length and the height; 0 at any other node.
        choice: u64,
    },
}

/// A certificate: one entry per node, in the order of the nodes. Contracts see the list of its entries.
#[derive(Drop)]
pub struct Cert {
    entries: Vec<Entry>,
}

impl Model for Cert {
    ghost use Rattle.std.specs.Prelude.{List};
    ghost use Rattle.abnf_cert.specs.declared.entry.Entry.{Entry};

    ghost Value = { List Entry };

    ghost view = { λ c. c.entries.items };
}

impl Cert {
    /// The certificate with these entries, in the order of the nodes. It need not be right: that is what
    /// [`check`](crate::check) says.
    pub fn new(entries: Vec<Entry>) -> Cert
        ensures { result ≡ entries.items }
    {
        Cert { entries }
    }

    /// The entries, by the numbers of their nodes.
    pub fn entries(&self) -> &[Entry]
        ensures { result.now ≡ self.now }
    {
        self.entries.as_slice()
    }
}
