// A configuration's text, as a program reads it.
#![tactic(auto)]

ghost use Rattle.std.specs.Prelude.{◌≡◌, IfOk, IfSome, take};

use config::check::LONGEST;
use std::alloc::Global;
use std::io;
use std::io::Read;

#[cfg(test)]
mod tests;

// One byte more than a configuration may have, so that a longer one is seen to be too long and read no further.
const ENOUGH: u64 = LONGEST as u64 + 1;

// The text that a source gives, as far as the check of a configuration looks at one.
pub fn read_text<R: Read>(heap: Global, source: R) -> io::Result<Vec<u8>>
where
    R: Drop,
    ensures { IfOk result (λ text. IfSome (R.remaining source) (λ all. text.items ≡ take 16385 all)) }
{
    let mut text = Vec::new(heap);
    source.take(ENOUGH).read_to_end(&mut text)?;
    Ok(text)
}
