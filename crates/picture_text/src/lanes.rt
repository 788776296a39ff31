//! The lanes of a picture, and their numbers.

ghost use Rattle.std.specs.Prelude.{◌≡◌, List, IfOk, OnOk, reverse};
ghost use Rattle.picture_text.specs.declared.events.Lane.{Lane};
ghost use Rattle.picture_text.specs.Lanes.{lane_key, lanes_of, number_in, process, with_lane};
ghost use Rattle.picture_text.specs.PictureText.{number_or_none, thread};
ghost use Rattle.picture_text.specs.inner.Following.{AreNumbered};

use crate::events::{Lane, PictureEvent};
use sgx_types::names::Memory;
use std::alloc::Global;
use std::collections::HashMap;

// A lane, as the key of a map.
#[derive(Clone, Copy, PartialEq, Eq, Hash)]
struct LaneKey {
    group: u8,
    enclave: u16,
    number: u32,
}

fn lane_key(lane: Lane) -> LaneKey
    ensures { result ≡ lane_key lane }
{
    let (enclave, number) = match lane {
        Lane::Processor(cpu) => (0, u32::from(cpu.0)),
        Lane::Frame(frame) => (0, frame.0),
        Lane::Page(page) => (page.enclave, page.number),
        Lane::Builder => (0, 0),
        Lane::Reclaimer => (0, 1),
        Lane::Counters => (0, 2),
    };
    LaneKey {
        group: process(lane),
        enclave,
        number,
    }
}

/// The process that a lane is shown under: 1 for processors, 2 for frames, 3 for pages, 4 for the driver.
pub(crate) fn process(lane: Lane) -> u8
    ensures { result ≡ process lane }
{
    match lane {
        Lane::Processor(_) => 1,
        Lane::Frame(_) => 2,
        Lane::Page(_) => 3,
        Lane::Builder => 4,
        Lane::Reclaimer => 4,
        Lane::Counters => 4,
    }
}

/// The lanes of events, each once, in the order of their first events, and the number of each, from 1.
#[derive(Drop)]
pub struct Lanes {
    lanes: Vec<Lane>,
    numbers: HashMap<LaneKey, u64>,
}

impl Lanes {
    /// The lanes of events, which stand oldest first.
    pub fn of(alloc: Global, events: &[PictureEvent]) -> Result<Lanes, Memory>
        ensures { IfOk result (λ known. AreNumbered known (lanes_of events.now)) }
    {
        let mut known = Lanes {
            lanes: Vec::new(alloc),
            numbers: HashMap::new(alloc),
        };
        for event in events {
            known.note(event.lane)?;
        }
        Ok(known)
    }

    fn note(&mut self, lane: Lane) -> Result<(), Memory>
        ensures { OnOk result ((known : List Lane) → AreNumbered self.old known → AreNumbered self.new (with_lane known lane)) }
    {
        let key = lane_key(lane);
        if !self.numbers.contains_key(&key) {
            self.lanes.push(lane)?;
            self.numbers.insert(key, self.lanes.len() as u64)?;
        }
        Ok(())
    }

    /// The lanes, in the order of their first events.
    pub fn as_slice(&self) -> &[Lane]
        ensures { (known : List Lane) → AreNumbered self.now known → result.now ≡ reverse known }
    {
        &self.lanes
    }

    /// The thread that a lane is shown as.
    pub(crate) fn thread(&self, lane: Lane) -> u64
        ensures { (known : List Lane) → AreNumbered self.now known → result ≡ thread known lane }
    {
        match lane {
            Lane::Processor(cpu) => u64::from(cpu.0) + 1,
            Lane::Frame(frame) => u64::from(frame.0) + 1,
            Lane::Page(_) => self.number(lane),
            Lane::Builder => 1,
            Lane::Reclaimer => 2,
            Lane::Counters => 0,
        }
    }

    fn number(&self, lane: Lane) -> u64
        ensures { (known : List Lane) → AreNumbered self.now known → result ≡ number_or_none (number_in known lane) }
    {
        match self.numbers.get(&lane_key(lane)) {
            Some(number) => *number,
            None => 0,
        }
    }
}
