// A log, replayed line by line.
use crate::account::Account;
use adapter::answer::Framed;
use agreement::Added;
use carrier::Carrier;
use sitelog::accepted::Accepted;
use sitelog::call::{Call, Use};
use sitelog::fault::Fault;
use sitelog::line::{is_silent, read_line};
use sitelog::mounted::Mounted;
use sitelog::site::{Place, Site};
use sitelog::stop::Stop;
use std::alloc::{AllocError, Global};
use std::io::{BufRead, BufReader, Read};

// The packets that a carrier holds from an index on, end to end.
fn packets_from(heap: Global, carrier: &Mounted, from: usize) -> Result<Vec<u8>, AllocError> {
    let mut packets = Vec::new(heap);
    let mut place = [0; 188];
    for i in from..carrier.held() {
        let _ = carrier.read(i, &mut place);
        packets.extend_from_slice(&place)?;
    }
    Ok(packets)
}

// A site as a log goes on, and what the log has told.
#[derive(Drop)]
struct Run<'a> {
    heap: Global,
    accepted: &'a Accepted,
    // Nothing before the first `power`.
    site: Option<Site>,
    account: Account,
}

impl<'a> Run<'a> {
    fn new(heap: Global, accepted: &'a Accepted) -> Result<Run<'a>, AllocError> {
        let config = accepted.config(heap)?;
        Ok(Run {
            heap,
            accepted,
            site: None,
            account: Account::new(heap, config.rates())?,
        })
    }

    fn power(&mut self, entries: usize) -> Result<(), Fault> {
        let config = self.accepted.config(self.heap)?;
        let site = Site::power(self.heap, config, entries).map_err(|_| Fault::EntriesMemory)?;
        self.site = Some(site);
        self.account.power();
        Ok(())
    }

    fn site(&mut self) -> Result<&mut Site, Fault> {
        self.site.as_mut().ok_or(Fault::NoPower)
    }

    // A frame call: where a frame was added, what the carrier holds more.
    fn frame(&mut self, place: Place) -> Result<(), Fault> {
        let heap = self.heap;
        let site = self.site()?;
        let before = site.carrier(place).ok_or(Fault::NoCarrier)?.held();
        let Some(Ok(Framed::Added(number, _))) = site.frame(place) else {
            return Ok(());
        };
        let carrier = site.carrier(place).ok_or(Fault::NoCarrier)?;
        let packets = packets_from(heap, carrier, before)?;
        self.account.added.push(Added { number, packets })?;
        Ok(())
    }

    // A carrier is used by hand; what is only asked of it tells nothing.
    fn serve(&mut self, place: Place, what: Use) -> Result<(), Fault> {
        let site = self.site()?;
        let used = match what {
            Use::Put(packet) => site.put(place, packet.as_slice()).map(drop),
            Use::Empty => site.empty(place),
            Use::Read(_) | Use::Free | Use::Bytes => site.carrier(place).map(drop),
        };
        used.ok_or(Fault::NoCarrier)
    }

    fn call(&mut self, call: Call) -> Result<(), Fault> {
        let heap = self.heap;
        match call {
            Call::Power(entries) => self.power(entries)?,
            Call::Tally => {
                self.site()?;
            }
            Call::Carrier { place, kind, bytes } => {
                self.site()?
                    .mount(heap, place, kind, bytes)
                    .map_err(|_| Fault::CarrierMemory)?;
            }
            Call::Hear(packet) => {
                let answer = self
                    .site()?
                    .adapter
                    .hear(packet.parent, packet.bytes.as_slice(), packet.time);
                self.account.hear(packet, answer)?;
            }
            Call::Loss(parent) => {
                if self.site()?.adapter.loss(parent).is_ok() {
                    self.account.loss(parent);
                }
            }
            Call::Record(frame) => {
                let answer = self
                    .site()?
                    .adapter
                    .record(frame.number, frame.start, frame.slots);
                self.account.record(frame, answer)?;
            }
            Call::Frame(place) => self.frame(place)?,
            Call::Use(place, what) => self.serve(place, what)?,
        }
        Ok(())
    }

    fn line(&mut self, line: &[u8]) -> Result<(), Fault> {
        if is_silent(line) {
            return Ok(());
        }
        self.call(read_line(self.heap, line)?)
    }
}

// A fault of a log by its name and its line; line 0 is what comes before the first.
fn at_line(heap: Global, name: &str, number: u64, fault: Fault) -> Stop {
    match String::from_str(heap, name) {
        Ok(name) => Stop::Line {
            log: Some(name),
            number,
            fault,
        },
        Err(error) => Stop::from(error),
    }
}

// What a log tells, by the name of the log.
pub(crate) fn replay<R: Read>(
    heap: Global,
    accepted: &Accepted,
    name: &str,
    log: R,
) -> Result<Account, Stop>
where
    R: Drop,
{
    let run = Run::new(heap, accepted);
    let mut run = run.map_err(|error| at_line(heap, name, 0, Fault::from(error)))?;
    let log = BufReader::new(heap, log);
    let log = log.map_err(|error| at_line(heap, name, 0, Fault::Unreadable(error)))?;
    for (index, line) in log.lines(heap).enumerate() {
        line.map_err(Fault::Unreadable)
            .and_then(|line| run.line(line.as_bytes()))
            .map_err(|fault| at_line(heap, name, (index + 1) as u64, fault))?;
    }
    Ok(run.account)
}
