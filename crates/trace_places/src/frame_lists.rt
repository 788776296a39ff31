//! The frames that have a page, or that await it.

ghost use Rattle.std.specs.Prelude.{◌≡◌, ◌<◌, [], if◌then◌else◌, OnOk, vec_len, vec_capacity};
ghost use Rattle.trace_places.specs.declared.change.Tenant.{Tenant};
ghost use Rattle.trace_places.specs.Places.{same_tenant, put_in, take_out, least};
ghost use Rattle.trace_places.specs.inner.Frames.{tenant_key, frames_in, HasFrameList, HasFrameRoom, IsFirstFrom};

use crate::change::Tenant;
use sgx_types::names::Memory;
use std::alloc::Global;
use std::collections::HashMap;

// The page of a tenant, and whether it is awaited, as the key of a map.
#[derive(Clone, Copy, PartialEq, Eq, Hash)]
struct TenantKey {
    awaited: bool,
    enclave: u16,
    number: u32,
}

fn tenant_key(tenant: Tenant) -> TenantKey
    ensures { result ≡ tenant_key tenant }
{
    let (page, awaited) = match tenant {
        Tenant::Has(page) => (page, false),
        Tenant::Awaits(page) => (page, true),
    };
    TenantKey {
        awaited,
        enclave: page.enclave,
        number: page.number,
    }
}

/// For each page the frames that have it, and those that await it, rising. In a trace that keeps the rules that is one frame at
/// most, and a call takes the time that it takes to go through them.
#[derive(Drop)]
pub(crate) struct FrameLists {
    lists: HashMap<TenantKey, Vec<u32>>,
}

impl FrameLists {
    /// No frame has or awaits a page.
    pub(crate) fn new(alloc: Global) -> FrameLists
        ensures { (t : Tenant) → frames_in result t ≡ [] }
    {
        FrameLists {
            lists: HashMap::new(alloc),
        }
    }

    /// The least frame of a tenant.
    pub(crate) fn least(&self, tenant: Tenant) -> Option<u32>
        ensures { result ≡ least (frames_in self.now tenant) }
    {
        self.lists.get(&tenant_key(tenant))?.first().copied()
    }

    /// Makes room for one frame more of a tenant.
    pub(crate) fn reserve(&mut self, alloc: Global, tenant: Tenant) -> Result<(), Memory>
        ensures same { (t : Tenant) → frames_in self.new t ≡ frames_in self.old t }
        ensures room { OnOk result (HasFrameRoom self.new tenant) }
    {
        self.begin(alloc, tenant)?;
        if let Some(list) = self.lists.get_mut(&tenant_key(tenant)) {
            list.reserve(1)?;
        }
        Ok(())
    }

    // Sees to it that a tenant has a list, be it an empty one.
    fn begin(&mut self, alloc: Global, tenant: Tenant) -> Result<(), Memory>
        ensures same { (t : Tenant) → frames_in self.new t ≡ frames_in self.old t }
        ensures begun { OnOk result (HasFrameList self.new tenant) }
    {
        let key = tenant_key(tenant);
        if !self.lists.contains_key(&key) {
            self.lists.insert(key, Vec::new(alloc))?;
        }
        Ok(())
    }

    /// A frame has this tenant.
    pub(crate) fn put_in(&mut self, tenant: Tenant, frame: u32)
        requires room { HasFrameRoom self.old tenant }
        ensures { (t : Tenant) → frames_in self.new t
            ≡ (if same_tenant tenant t then put_in frame (frames_in self.old t) else frames_in self.old t) }
    {
        if let Some(list) = self.lists.get_mut(&tenant_key(tenant)) {
            put_in(list, frame);
        }
    }

    /// A frame has this tenant no more.
    pub(crate) fn take_out(&mut self, tenant: Tenant, frame: u32)
        ensures { (t : Tenant) → frames_in self.new t
            ≡ (if same_tenant tenant t then take_out frame (frames_in self.old t) else frames_in self.old t) }
    {
        if let Some(list) = self.lists.get_mut(&tenant_key(tenant)) {
            take_out(list, frame);
        }
    }
}

fn put_in(list: &mut Vec<u32>, frame: u32)
    requires { vec_len list.old < vec_capacity list.old }
    ensures { list.new.items ≡ put_in frame list.old.items }
{
    let place = place_from(list, frame);
    if place < list.len() && list[place] == frame {
        return;
    }
    let kept: Result<_, _> = list.insert(place, frame);
    kept.unwrap();
}

fn take_out(list: &mut Vec<u32>, frame: u32)
    ensures { list.new.items ≡ take_out frame list.old.items }
{
    let place = place_from(list, frame);
    if place < list.len() && list[place] == frame {
        list.remove(place);
    }
}

// The place of the first frame from this number on.
fn place_from(list: &[u32], frame: u32) -> usize
    ensures { IsFirstFrom list.now frame result }
{
    for (i, n) in list.iter().enumerate() {
        if *n >= frame {
            return i;
        }
    }
    list.len()
}
