// A site, and what its log tells of it.
use crate::observer::Observer;
use crate::reply::Reply;
use carrier::Carrier;
use rules::entry::Frame;
use sitelog::accepted::Accepted;
use sitelog::call::{Call, Packet, Use};
use sitelog::fault::Fault;
use sitelog::mounted::{Kind, Mounted};
use sitelog::site::Place;
use std::alloc::{AllocError, Global};

// What runs from power-up on.
#[derive(Drop)]
struct Powered {
    site: sitelog::site::Site,
    observer: Observer,
}

// The packet of an index.
fn packet(heap: Global, carrier: &Mounted, index: usize) -> Result<Reply, AllocError> {
    let mut place = [0; 188];
    Ok(match carrier.read(index, &mut place) {
        Some(()) => Reply::Bytes(place.to_vec(heap)?),
        None => Reply::Nothing,
    })
}

impl Powered {
    fn new(heap: Global, accepted: &Accepted, entries: usize) -> Result<Powered, Fault> {
        let config = accepted.config(heap)?;
        let observer = Observer::new(heap, &config)?;
        let site = sitelog::site::Site::power(heap, config, entries).map_err(
            |_| Fault::EntriesMemory,
        )?;
        Ok(Powered { site, observer })
    }

    fn mount(
        &mut self,
        heap: Global,
        place: Place,
        kind: Kind,
        bytes: usize,
    ) -> Result<Reply, Fault> {
        self.site
            .mount(heap, place, kind, bytes)
            .map(Reply::Capacity)
            .map_err(|_| Fault::CarrierMemory)
    }

    fn hear(&mut self, packet: Packet) -> Result<Reply, Fault> {
        let Packet {
            parent,
            time,
            bytes,
        } = packet;
        let answer = self.site.adapter.hear(parent, bytes.as_slice(), time);
        self.observer.hear(parent, time, answer)?;
        Ok(answer.map_or_else(Reply::Refused, Reply::Heard))
    }

    fn loss(&mut self, parent: usize) -> Reply {
        let answer = self.site.adapter.loss(parent);
        self.observer.loss(parent, answer);
        answer.map_or_else(Reply::Refused, Reply::Lost)
    }

    fn record(&mut self, frame: Frame) -> Reply {
        let answer = self
            .site
            .adapter
            .record(frame.number, frame.start, frame.slots);
        self.observer.record(frame, answer);
        answer.map_or_else(Reply::Refused, Reply::Recorded)
    }

    fn frame(&mut self, place: Place) -> Result<Reply, Fault> {
        let answer = self.site.frame(place).ok_or(Fault::NoCarrier)?;
        self.observer.frame(answer);
        Ok(answer.map_or_else(Reply::Refused, Reply::Framed))
    }

    fn put(&mut self, place: Place, packet: &[u8]) -> Result<Reply, Fault> {
        let answer = self.site.put(place, packet).ok_or(Fault::NoCarrier)?;
        Ok(answer.map_or_else(Reply::PutRefused, |()| Reply::Put))
    }

    fn carrier(&self, place: Place) -> Result<&Mounted, Fault> {
        self.site.carrier(place).ok_or(Fault::NoCarrier)
    }

    fn serve(&mut self, heap: Global, place: Place, what: &Use) -> Result<Reply, Fault> {
        match what {
            Use::Put(packet) => self.put(place, packet.as_slice()),
            Use::Empty => {
                self.site.empty(place).ok_or(Fault::NoCarrier)?;
                Ok(Reply::Emptied)
            }
            Use::Read(index) => Ok(packet(heap, self.carrier(place)?, *index)?),
            Use::Free => {
                let carrier = self.carrier(place)?;
                Ok(Reply::Free {
                    free: carrier.free(),
                    capacity: carrier.capacity(),
                })
            }
            Use::Bytes => Ok(Reply::Bytes(self.carrier(place)?.bytes().to_vec(heap)?)),
        }
    }
}

// A site by its configuration. (That it goes from call to call here, and in `racks` too, is no twin: here every answer is
// kept to be printed, there only what tells of the site, with the carrier before and after a frame.)
#[derive(Drop)]
pub(crate) struct Site {
    heap: Global,
    accepted: Accepted,
    // Nothing before the first `power`.
    powered: Option<Powered>,
}

impl Site {
    pub(crate) fn new(heap: Global, accepted: Accepted) -> Site {
        Site {
            heap,
            accepted,
            powered: None,
        }
    }

    fn power(&mut self, count: usize) -> Result<Reply, Fault> {
        self.powered = Some(Powered::new(self.heap, &self.accepted, count)?);
        Ok(Reply::On)
    }

    fn running(&mut self) -> Result<&mut Powered, Fault> {
        self.powered.as_mut().ok_or(Fault::NoPower)
    }

    // What the site answers to a call.
    pub(crate) fn answer(&mut self, call: Call) -> Result<Reply, Fault> {
        let heap = self.heap;
        match call {
            Call::Power(count) => self.power(count),
            Call::Carrier { place, kind, bytes } => self.running()?.mount(heap, place, kind, bytes),
            Call::Hear(packet) => self.running()?.hear(packet),
            Call::Loss(parent) => Ok(self.running()?.loss(parent)),
            Call::Record(frame) => Ok(self.running()?.record(frame)),
            Call::Frame(place) => self.running()?.frame(place),
            Call::Use(place, what) => self.running()?.serve(heap, place, &what),
            Call::Tally => Ok(Reply::Tally(self.running()?.observer.tally())),
        }
    }
}
