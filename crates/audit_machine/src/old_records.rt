//! The records with which pages went out last.

ghost use Rattle.std.specs.Prelude.{◌≡◌, OnErr, OnOk, option_map};
ghost use Rattle.audit_machine.specs.inner.Kept.{kept_of, no_records, records_of, with_record, without_record};

use seal_record::unseal::UnsealedWork;
use sgx_types::names::{Memory, Page};
use std::alloc::Global;
use std::collections::HashMap;
use std::marker::Model;

/// For each page a record with which it went out, opened, where one is kept. No call takes longer where more are.
#[derive(Drop)]
pub struct OldRecords {
    works: HashMap<Page, UnsealedWork>,
}

impl Model for OldRecords {
    ghost use Rattle.std.specs.Prelude.{ℕ, List};
    ghost use Rattle.sgx_types.specs.declared.names.Page.{Page};
    ghost use Rattle.sgx_types.specs.Sealed.{Sealed};

    ghost Value = { List (Page × (ℕ × Sealed)) };

    ghost use Rattle.audit_machine.specs.inner.Views.{pairs_in};

    ghost view = { pairs_in };
}

impl OldRecords {
    /// No record is kept.
    pub fn new(alloc: Global) -> OldRecords
        ensures { records_of result ≡ no_records }
    {
        OldRecords {
            works: HashMap::new(alloc),
        }
    }

    /// Keeps a record for a page, in place of the one that was kept for it. Refused memory leaves all as it was.
    pub fn keep(&mut self, page: Page, work: UnsealedWork) -> Result<(), Memory>
        ensures kept { OnOk result (records_of self.new ≡ with_record (records_of self.old) page (kept_of work)) }
        ensures refused { OnErr result (self.new ≡ self.old) }
    {
        self.works.insert(page, work)?;
        Ok(())
    }

    /// Takes the record out that is kept for a page, if one is.
    pub fn take(&mut self, page: Page) -> Option<UnsealedWork>
        ensures taken { option_map kept_of result ≡ records_of self.old page }
        ensures gone { records_of self.new ≡ without_record (records_of self.old) page }
    {
        self.works.remove(&page)
    }
}
