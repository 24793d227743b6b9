// The text of a configuration that was accepted. It is checked again at each `power`, since an adapter keeps its own.
ghost use Rattle.std.specs.Prelude.{◌≡◌, IfOk, Ok};
ghost use Rattle.config.specs.Setup.{setup};
ghost use Rattle.config.specs.Verdict.{verdict};
ghost use Rattle.sitelog.specs.Stops.{text_of, Accepts};

use crate::stop::{Stop, open};
use conffile::read_text;
use config::answer::answer_line;
use config::check::check;
use config::fault::ConfigFault;
use config::table::Config;
use std::alloc::{AllocError, Global};

#[derive(Drop)]
pub struct Accepted {
    text: Vec<u8>,
}

impl Accepted {
    // A text, if its check accepts it.
    pub fn of(heap: Global, text: Vec<u8>) -> Result<Accepted, Stop>
        ensures { IfOk result (Accepts text.items) }
    {
        match check(heap, text.as_slice()) {
            Ok(_) => Ok(Accepted { text }),
            Err(ConfigFault::Memory) => Err(Stop::from(AllocError)),
            Err(_) => Err(Stop::Refused(answer_line(heap, text.as_slice())?)),
        }
    }

    // The text of a file, if its check accepts it.
    pub fn read(rt: &HostRuntime, path: &str) -> Result<Accepted, Stop>
        ensures { IfOk result (λ accepted. Accepts (text_of accepted) accepted) }
    {
        let text = read_text(rt.alloc(), open(rt, path)?)?;
        Accepted::of(rt.alloc(), text)
    }

    // The configuration that the text writes. It was accepted before, so only memory can be wanting.
    pub fn config(&self, heap: Global) -> Result<Config, AllocError>
        ensures { IfOk result (λ c. verdict (text_of self.now) ≡ Ok (setup c)) }
    {
        check(heap, self.text.as_slice()).map_err(|_| AllocError)
    }
}
