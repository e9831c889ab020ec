//! A snapshot that several owners read.
//!
//! Another owner asks for no memory, but `Arc::clone` answers an error where its count of owners can't grow, and its contract leaves open
//! when. Two owners can't be known for owners of one snapshot, as the kit's `Arc` has no comparison of addresses: their texts are compared.
ghost use Rattle.std.specs.Prelude.{◌≡◌, IfOk};
ghost use Rattle.std.specs.Arc.{arc_value};

use ls_text::Snapshot;
use std::alloc::{AllocError, Global};
use std::marker::Model;
use std::sync::Arc;

/// A snapshot that several owners read. Contracts see the list of its characters.
#[derive(Drop)]
pub struct SharedSnapshot {
    arc: Arc<Snapshot>,
}

impl Model for SharedSnapshot {
    ghost use Rattle.std.specs.Prelude.{ℕ, List};
    ghost use Rattle.std.specs.Arc.{arc_value};

    ghost Value = { List ℕ };

    ghost view = { λ shared. arc_value shared.arc };
}

impl SharedSnapshot {
    /// The first owner of a snapshot.
    ///
    /// # Errors
    ///
    /// Where an allocation is refused.
    pub fn new(alloc: Global, snapshot: Snapshot) -> Result<SharedSnapshot, AllocError>
        ensures { IfOk result (λ shared. shared ≡ snapshot) }
    {
        Ok(SharedSnapshot {
            arc: Arc::new(alloc, snapshot)?,
        })
    }

    /// One more owner, which has the snapshot already.
    pub fn of(arc: Arc<Snapshot>) -> SharedSnapshot
        ensures { result ≡ arc_value arc }
    {
        SharedSnapshot { arc }
    }

    /// The snapshot.
    pub fn get(&self) -> &Snapshot
        ensures { result.now ≡ self.now }
    {
        &self.arc
    }

    /// Another owner of the snapshot, for a job.
    ///
    /// # Errors
    ///
    /// Where an allocation is refused.
    pub fn arc(&self) -> Result<Arc<Snapshot>, AllocError>
        ensures { IfOk result (λ arc. arc_value arc ≡ self.now) }
    {
        self.arc.clone()
    }

    /// Another owner of the snapshot, which is shared and not copied.
    ///
    /// # Errors
    ///
    /// Where an allocation is refused.
    pub fn again(&self) -> Result<SharedSnapshot, AllocError>
        ensures { IfOk result (λ shared. shared ≡ self.now) }
    {
        Ok(SharedSnapshot {
            arc: self.arc.clone()?,
        })
    }
}
