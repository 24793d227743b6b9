// The words of the command line.
use std::alloc::{AllocError, Global};
use std::env::Args;
use std::fmt;
use std::str::FromStr;
use thiserror::Error;

pub(crate) const USAGE: &str = "usage: remux CONFIG PARENT0.ts [PARENT1.ts ..] -o OUT [options]

  CONFIG                the configuration text
  PARENT0.ts ..         a transport stream file for each parent that it lists: 188-byte
                        packets, or 192-byte packets with their arrival before them

  -o FILE               where the multiplex goes
  --slots N             slots in each frame (1000)
  --start TICKS         start of the first frame (the latest of the parents' first times)
  --frames COUNT        frames skipped, followed or added, at most (as many as the input allows)
  --carrier KIND        strip: transport packets; folded: without stuffing (strip)
  --entries COUNT       waiting memory in packets (the backlog and 4096 for each parent)
  --time P TICKS        time of the first packet in parent P's file (0, or its stamp)
  --miss P COUNT        packets at the beginning of parent P's file that are missed (0)
  -v                    a line for each frame
  --help                this text

Times are in ticks of 27 MHz.

example: remux mux.conf parent0.ts parent1.ts -o out.ts --slots 1000 --start 2700000 -v";

// A word that is none of those that may stand in its place.
#[derive(Clone, Copy, Debug)]
pub(crate) struct UnknownWord;

// An option that has values behind it.
#[derive(Clone, Copy, PartialEq, Eq, Debug)]
pub(crate) enum Named {
    Out,
    Slots,
    Start,
    Frames,
    Carrier,
    Entries,
    // These two are for a parent, whose number goes before the value.
    Time,
    Miss,
}

impl FromStr for Named {
    type Err = UnknownWord;

    fn from_str(word: &str) -> Result<Named, UnknownWord> {
        match word {
            "-o" => Ok(Named::Out),
            "--slots" => Ok(Named::Slots),
            "--start" => Ok(Named::Start),
            "--frames" => Ok(Named::Frames),
            "--carrier" => Ok(Named::Carrier),
            "--entries" => Ok(Named::Entries),
            "--time" => Ok(Named::Time),
            "--miss" => Ok(Named::Miss),
            _ => Err(UnknownWord),
        }
    }
}

impl fmt::Display for Named {
    fn fmt<W: fmt::Write>(&self, f: &mut fmt::Formatter<W>) -> fmt::Result {
        f.write_str(match self {
            Named::Out => "-o",
            Named::Slots => "--slots",
            Named::Start => "--start",
            Named::Frames => "--frames",
            Named::Carrier => "--carrier",
            Named::Entries => "--entries",
            Named::Time => "--time",
            Named::Miss => "--miss",
        })
    }
}

// Site logs name the same two in the crate `sitelog`; for two words a program without logs does not stand on it.
#[derive(Clone, Copy, PartialEq, Eq, Debug)]
pub(crate) enum CarrierKind {
    Strip,
    Folded,
}

impl FromStr for CarrierKind {
    type Err = UnknownWord;

    fn from_str(word: &str) -> Result<CarrierKind, UnknownWord> {
        match word {
            "strip" => Ok(CarrierKind::Strip),
            "folded" => Ok(CarrierKind::Folded),
            _ => Err(UnknownWord),
        }
    }
}

// What is wrong with a call.
#[derive(Debug, Drop, Error)]
pub(crate) enum UsageFault {
    #[error("unknown option {0}")]
    UnknownOption(String),
    #[error("{0} needs a value")]
    NoValue(Named),
    #[error("{0} is given twice")]
    GivenTwice(Named),
    #[error("{0}: {1} is no number")]
    NoNumber(Named, String),
    #[error("{0}: {1} is no parent (0 to 3)")]
    NoParent(Named, String),
    #[error("--carrier: {0} is neither strip nor folded")]
    NoCarrier(String),
    #[error("where does the multiplex go? -o FILE")]
    NoOutput,
    #[error("a configuration and a file for each parent are needed (see --help)")]
    NoInput,
    #[error("out of memory")]
    Memory(#[from(alloc)] AllocError),
}

// What the options set; `None` where the default holds.
#[derive(Clone, Copy, Default)]
pub(crate) struct Settings {
    pub(crate) slots: Option<u64>,
    pub(crate) start: Option<u64>,
    pub(crate) frames: Option<u64>,
    pub(crate) carrier: Option<CarrierKind>,
    pub(crate) entries: Option<u64>,
    pub(crate) parents: [ParentSettings; 4],
    pub(crate) verbose: bool,
}

// What they set for one parent: the time of its first packet, and how many packets are missed.
#[derive(Clone, Copy, Default)]
pub(crate) struct ParentSettings {
    pub(crate) time: Option<u64>,
    pub(crate) miss: Option<u64>,
}

// What is asked for.
#[derive(Drop)]
pub(crate) struct Options {
    pub(crate) config: String,
    pub(crate) parents: Vec<String>,
    pub(crate) out: String,
    pub(crate) settings: Settings,
}

#[derive(Drop)]
pub(crate) enum Call {
    Help,
    Remux(Options),
}

// The call that the words make, the program's name left out.
pub(crate) fn read_call(heap: Global, mut words: Args) -> Result<Call, UsageFault> {
    let mut draft = Draft::new(heap);
    // Each turn takes one word or more: this bound spares a measure, and a clause on each function that takes words.
    for _ in 0..words.len() {
        let Some(word) = words.next() else {
            break;
        };
        if word.as_str() == "--help" {
            return Ok(Call::Help);
        }
        draft.read(word, &mut words)?;
    }
    Ok(Call::Remux(draft.finish()?))
}

// What was read so far.
#[derive(Drop)]
struct Draft {
    config: Option<String>,
    parents: Vec<String>,
    out: Option<String>,
    settings: Settings,
}

impl Draft {
    fn new(heap: Global) -> Draft {
        Draft {
            config: None,
            parents: Vec::new(heap),
            out: None,
            settings: Settings::default(),
        }
    }

    // Reads a word, and behind an option its values.
    fn read(&mut self, word: String, words: &mut Args) -> Result<(), UsageFault> {
        if let Ok(option) = word.as_str().parse() {
            return self.read_values(option, words);
        }
        if word.as_str() == "-v" {
            self.settings.verbose = true;
        } else if word.as_str().starts_with('-') {
            return Err(UsageFault::UnknownOption(word));
        } else if self.config.is_none() {
            self.config = Some(word);
        } else {
            self.parents.push(word)?;
        }
        Ok(())
    }

    fn read_values(&mut self, option: Named, words: &mut Args) -> Result<(), UsageFault> {
        let settings = &mut self.settings;
        match option {
            Named::Out => set(&mut self.out, option, value(option, words)?),
            Named::Slots => set(&mut settings.slots, option, number(option, words)?),
            Named::Start => set(&mut settings.start, option, number(option, words)?),
            Named::Frames => set(&mut settings.frames, option, number(option, words)?),
            Named::Carrier => set(&mut settings.carrier, option, carrier(words)?),
            Named::Entries => set(&mut settings.entries, option, number(option, words)?),
            Named::Time => {
                let parent = parent(&mut settings.parents, option, words)?;
                set(&mut parent.time, option, number(option, words)?)
            }
            Named::Miss => {
                let parent = parent(&mut settings.parents, option, words)?;
                set(&mut parent.miss, option, number(option, words)?)
            }
        }
    }

    fn finish(self) -> Result<Options, UsageFault> {
        let Draft {
            config,
            parents,
            out,
            settings,
        } = self;
        let config = config.ok_or(UsageFault::NoInput)?;
        if parents.is_empty() {
            return Err(UsageFault::NoInput);
        }
        Ok(Options {
            config,
            parents,
            out: out.ok_or(UsageFault::NoOutput)?,
            settings,
        })
    }
}

// Sets what was not set before.
fn set<T: Drop>(place: &mut Option<T>, option: Named, value: T) -> Result<(), UsageFault> {
    match place.replace(value) {
        Some(_) => Err(UsageFault::GivenTwice(option)),
        None => Ok(()),
    }
}

// The word behind an option.
fn value(option: Named, words: &mut Args) -> Result<String, UsageFault> {
    words.next().ok_or(UsageFault::NoValue(option))
}

// A decimal number, with no sign.
fn number(option: Named, words: &mut Args) -> Result<u64, UsageFault> {
    let word = value(option, words)?;
    if word.as_str().starts_with('+') {
        return Err(UsageFault::NoNumber(option, word));
    }
    let number = word.as_str().parse();
    number.map_err(|_| UsageFault::NoNumber(option, word))
}

fn carrier(words: &mut Args) -> Result<CarrierKind, UsageFault> {
    let word = value(Named::Carrier, words)?;
    let kind = word.as_str().parse();
    kind.map_err(|_| UsageFault::NoCarrier(word))
}

// The settings of the parent whose number is next.
fn parent<'a>(
    parents: &'a mut [ParentSettings; 4],
    option: Named,
    words: &mut Args,
) -> Result<&'a mut ParentSettings, UsageFault> {
    let word = value(option, words)?;
    match word.as_str() {
        "0" => Ok(&mut parents[0]),
        "1" => Ok(&mut parents[1]),
        "2" => Ok(&mut parents[2]),
        "3" => Ok(&mut parents[3]),
        _ => Err(UsageFault::NoParent(option, word)),
    }
}
