// From the options to a run: the configuration is checked and the files are opened.
use crate::fault::{Fault, FileFault};
use crate::job::Job;
use crate::options::{CarrierKind, Named, Options, Settings};
use crate::output::Output;
use crate::parent::Parent;
use crate::rack::Rack;
use crate::sink::Sink;
use crate::source::Source;
use adapter::Adapter;
use adapter::limits::MOST_SLOTS;
use carrier::{Folded, Strip};
use conffile::read_text;
use config::answer::answer_line;
use config::check::check;
use config::table::Config;
use feed::plan::Plan;
use psi::packet::LENGTH;
use rules::entry::Entry;
use std::alloc::{AllocError, Global};
use std::fs;

// How many it has by default.
const USUAL_SLOTS: u64 = 1000;
// A parent's line has room for so many entries, as the memory's own limit has it, which is not public; more are never used.
const LINE: usize = 4096;

// Remultiplexes the files that the options name.
pub(crate) fn remux(rt: &HostRuntime, options: &Options) -> Result<(), Fault> {
    let heap = rt.alloc();
    let mut job = prepare(rt, options)?;
    let sink = create(rt, options)?;
    let slots = job.plan.slots;
    match options.settings.carrier.unwrap_or(CarrierKind::Strip) {
        CarrierKind::Strip => job.run(rt, &mut Output::<Strip>::new(heap, slots, sink)?)?,
        CarrierKind::Folded => job.run(rt, &mut Output::<Folded>::new(heap, slots, sink)?)?,
    }
    // A file that ends in the middle of a packet is told of after all before it was used.
    let cut = job.parents.iter().find_map(|parent| parent.cut());
    cut.map_or(Ok(()), Err)
}

// A run, ready to begin.
fn prepare(rt: &HostRuntime, options: &Options) -> Result<Job, Fault> {
    let config = read_config(rt, &options.config)?;
    let settings = &options.settings;
    listed(&config, options)?;
    let slots = slots_for(&config, settings)?;
    let entries = entries_for(&config, settings)?;
    let mut parents = open_parents(rt, &config, options)?;
    let first_times = parents.iter().map(|parent| parent.first_time());
    let latest = first_times.max().unwrap_or(0);
    let plan = Plan {
        start: settings.start.unwrap_or(latest),
        ticks: config.ticks(),
        slots,
    };
    miss_all(parents.as_mut_slice(), settings)?;
    Ok(Job {
        parents,
        rack: Rack::new(Adapter::new(config, waiting_memory(rt.alloc(), entries)?)),
        plan,
        frames: settings.frames.unwrap_or(u64::MAX),
        oldest: 0,
        given: 0,
        verbose: settings.verbose,
    })
}

// The configuration in a file, checked.
fn read_config(rt: &HostRuntime, name: &String) -> Result<Config, Fault> {
    let heap = rt.alloc();
    let text = fs::open(rt, name.as_str()).and_then(|file| read_text(heap, file));
    let text = text.map_err(|error| FileFault::from(error).of(name))?;
    check(heap, text.as_slice()).try_map_err(|_| {
        let line = answer_line(heap, text.as_slice())?;
        Ok(Fault::Config(name.clone()?, line))
    })
}

// Whether there is a file for each parent, and no option for another one.
fn listed(config: &Config, options: &Options) -> Result<(), Fault> {
    let parents = config.rates().len();
    if options.parents.len() != parents {
        return Err(Fault::Files(options.parents.len(), parents));
    }
    let settings = options.settings.parents.iter();
    for (number, parent) in settings.enumerate().skip(parents) {
        if parent.time.is_some() {
            return Err(Fault::Unlisted(Named::Time, number));
        }
        if parent.miss.is_some() {
            return Err(Fault::Unlisted(Named::Miss, number));
        }
    }
    Ok(())
}

// How many slots a frame has.
fn slots_for(config: &Config, settings: &Settings) -> Result<u32, Fault> {
    let slots = settings.slots.unwrap_or(USUAL_SLOTS);
    let fits = |slots: &u32| (config.copies()..=MOST_SLOTS).contains(slots);
    let known = u32::try_from(slots).ok().filter(fits);
    known.ok_or(Fault::Slots(slots))
}

// How many entries the waiting memory has: not more than can be used.
fn entries_for(config: &Config, settings: &Settings) -> Result<usize, Fault> {
    let backlog = config.backlog() as usize;
    let parents = config.rates().len();
    let most = backlog.saturating_add(parents.saturating_mul(LINE));
    let Some(entries) = settings.entries else {
        return Ok(most);
    };
    if entries < backlog.saturating_add(parents) as u64 {
        return Err(Fault::Entries(entries));
    }
    Ok((entries as usize).min(most))
}

fn waiting_memory(heap: Global, entries: usize) -> Result<Vec<Entry>, AllocError> {
    let nothing = Entry {
        arrival: 0,
        row: 0,
        bytes: [0; LENGTH],
    };
    Ok(vec![in heap; nothing; entries]?)
}

fn open_parents(
    rt: &HostRuntime,
    config: &Config,
    options: &Options,
) -> Result<Vec<Parent>, Fault> {
    let mut parents = Vec::new(rt.alloc());
    let files = options.parents.iter().zip(&options.settings.parents);
    for (number, ((file, settings), rate)) in files.zip(config.rates()).enumerate() {
        let source = Source::open(rt, file.as_str());
        let source = source.map_err(|fault| fault.of(file))?;
        let name = file.clone()?;
        parents.push(Parent::new(name, number, *rate, source, settings.time))?;
    }
    Ok(parents)
}

// Passes by the packets that this rack misses.
fn miss_all(parents: &mut [Parent], settings: &Settings) -> Result<(), Fault> {
    for (parent, settings) in parents.iter_mut().zip(&settings.parents) {
        let missed = parent.miss(settings.miss.unwrap_or(0));
        missed.map_err(|fault| parent.blame(fault))?;
    }
    Ok(())
}

// Where the multiplex goes: none of the files that are read.
fn create(rt: &HostRuntime, options: &Options) -> Result<Sink, Fault> {
    let name = options.out.clone()?;
    let is_input = options.config.as_str() == name.as_str()
        || options
            .parents
            .iter()
            .any(|file| file.as_str() == name.as_str());
    if is_input {
        return Err(Fault::Overwrites(name));
    }
    Sink::create(rt, name)
}
