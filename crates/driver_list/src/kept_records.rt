//! The records that started loads look at.

ghost use Rattle.std.specs.Prelude.{◌≡◌, ◌<◌, None, Some, length, replicate, slice_set, IfOk, IsSome};
ghost use Rattle.driver_list.specs.inner.Keeping.{kept_at, page_kept, record_kept, keeping};

use sgx_types::names::{Cpu, Memory, Page};
use sgx_types::record::{Header, Record};
use std::alloc::Global;
use std::marker::Model;

// Room for a record, and the page of the one that is kept there.
#[derive(Drop)]
struct Room {
    page: Option<Page>,
    record: Record,
}

impl Room {
    fn new(alloc: Global) -> Result<Room, Memory>
        ensures { IfOk result (λ room. room.page ≡ None) }
    {
        let header = Header {
            enclave: 0,
            address: 0,
            flags: 0,
        };
        let cipher = vec![in alloc; 0; 4096]?;
        let record = Record {
            header,
            cipher,
            tag: [0; 32],
        };
        Ok(Room { page: None, record })
    }
}

/// For each processor, the record that its started load looks at, with the load's page (this project's own). Each
/// processor has room for one record, which `new` makes, so no other call takes memory. Contracts see what is kept, by
/// processor.
#[derive(Drop)]
pub struct KeptRecords {
    rooms: Vec<Room>,
}

impl Model for KeptRecords {
    ghost use Rattle.std.specs.Prelude.{List, Option};
    ghost use Rattle.driver_list.specs.inner.Keeping.{Kept};

    ghost Value = { List (Option Kept) };

    ghost use Rattle.driver_list.specs.inner.Rooms.{kept_in};

    ghost view = { kept_in };
}

impl KeptRecords {
    /// Room for so many processors, from 0 on, each without a record. The error says that memory was refused.
    pub fn new(alloc: Global, cpus: u8) -> Result<KeptRecords, Memory>
        ensures { IfOk result (λ kept. kept ≡ replicate cpus None) }
    {
        let mut rooms = Vec::with_capacity(alloc, usize::from(cpus))?;
        for _ in 0..cpus {
            rooms.push_reserved(Room::new(alloc)?);
        }
        Ok(KeptRecords { rooms })
    }

    /// Keeps a copy of a record and its page for a processor, in place of what was kept for it.
    pub fn keep(&mut self, cpu: Cpu, page: Page, rec: &Record)
        requires { cpu.0 < length self.old }
        ensures { self.new ≡ slice_set self.old cpu.0 (Some (keeping page rec.now)) }
    {
        let room = &mut self.rooms[usize::from(cpu.0)];
        room.page = Some(page);
        copy_record(&mut room.record, rec);
    }

    /// The page of the record that is kept for a processor. None exactly where none is kept.
    pub fn kept_page(&self, cpu: Cpu) -> Option<Page>
        requires { cpu.0 < length self.now }
        ensures { result ≡ page_kept (kept_at self.now cpu.0) }
    {
        self.rooms[usize::from(cpu.0)].page
    }

    /// The record that is kept for a processor, who needs one.
    pub fn kept(&self, cpu: Cpu) -> &Record
        requires within { cpu.0 < length self.now }
        requires there { IsSome (kept_at self.now cpu.0) }
        ensures { record_kept (kept_at self.now cpu.0) ≡ Some result.now }
    {
        &self.rooms[usize::from(cpu.0)].record
    }

    /// Keeps no record for a processor.
    pub fn forget(&mut self, cpu: Cpu)
        requires { cpu.0 < length self.old }
        ensures { self.new ≡ slice_set self.old cpu.0 None }
    {
        self.rooms[usize::from(cpu.0)].page = None;
    }
}

/// Makes a record a copy of another, in the room that it has: header, 4096 cipher bytes and tag. Takes no memory.
pub fn copy_record(to: &mut Record, from: &Record)
    ensures { to.new ≡ from.now }
{
    to.header = from.header;
    to.cipher.copy_from_slice(&from.cipher);
    to.tag = from.tag;
}
