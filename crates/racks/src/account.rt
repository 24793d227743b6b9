// What a log tells of its site: packets taken, records accepted, frames added.
use crate::records::Record;
use adapter::answer::{Heard, Recorded, Refusal};
use agreement::Added;
use feed::known::Known;
use rules::entry::Frame;
use sitelog::call::Packet;
use std::alloc::{AllocError, Global};

// A packet that was taken from a parent.
#[derive(Drop)]
pub(crate) struct Taken {
    pub(crate) arrival: u64,
    // The time that it was handed with, or none.
    pub(crate) time: Option<u64>,
    pub(crate) bytes: Vec<u8>,
    // Whether it is the first since power-up or the last loss. (A flag with each packet: a list for each stretch between
    // losses would be a list of lists, taken apart again where both sites' packets are put in order.)
    pub(crate) begins: bool,
}

// What is told of a parent.
#[derive(Drop)]
pub(crate) struct Parent {
    rate: u32,
    // What the packets taken since power-up or the last loss tell, from an anchor on.
    known: Option<Known>,
    // Every packet that was taken and has an arrival.
    pub(crate) taken: Vec<Taken>,
}

impl Parent {
    fn take(&mut self, time: Option<u64>, bytes: Vec<u8>) -> Result<(), AllocError> {
        let begins = self.known.is_none();
        self.known = Known::after(self.known, time, self.rate);
        if let Some(known) = self.known {
            self.taken.push(Taken {
                arrival: known.heard_to,
                time,
                bytes,
                begins,
            })?;
        }
        Ok(())
    }

    fn lose(&mut self) {
        self.known = None;
    }
}

#[derive(Drop)]
pub(crate) struct Account {
    pub(crate) parents: Vec<Parent>,
    pub(crate) records: Vec<Record>,
    pub(crate) added: Vec<Added>,
}

impl Account {
    // Nothing is told yet of parents of these rates.
    pub(crate) fn new(heap: Global, rates: &[u32]) -> Result<Account, AllocError> {
        let mut parents = Vec::new(heap);
        for rate in rates {
            parents.push(Parent {
                rate: *rate,
                known: None,
                taken: Vec::new(heap),
            })?;
        }
        Ok(Account {
            parents,
            records: Vec::new(heap),
            added: Vec::new(heap),
        })
    }

    // A new adapter knows nothing of its parents.
    pub(crate) fn power(&mut self) {
        for parent in self.parents.iter_mut() {
            parent.lose();
        }
    }

    pub(crate) fn hear(
        &mut self,
        packet: Packet,
        answer: Result<Heard, Refusal>,
    ) -> Result<(), AllocError> {
        let Some(parent) = self.parents.get_mut(packet.parent) else {
            return Ok(());
        };
        match answer {
            Ok(_) => parent.take(packet.time, packet.bytes),
            Err(Refusal::BadPacket | Refusal::Untimely) => {
                parent.lose();
                Ok(())
            }
            Err(_) => Ok(()),
        }
    }

    pub(crate) fn loss(&mut self, parent: usize) {
        if let Some(parent) = self.parents.get_mut(parent) {
            parent.lose();
        }
    }

    pub(crate) fn record(
        &mut self,
        frame: Frame,
        answer: Result<Recorded, Refusal>,
    ) -> Result<(), AllocError> {
        if answer.is_ok() {
            self.records.push(Record {
                number: frame.number,
                start: frame.start,
                slots: frame.slots,
            })?;
        }
        Ok(())
    }
}
