// The words of a line: what stands between single spaces.
ghost use Rattle.std.specs.Prelude.{◌≡◌, [], ◌∷◌, MatchOption};
ghost use Rattle.config.specs.Text.{fields};
ghost use Rattle.sitelog.specs.Splits.{left, NoMore, One, Two, Three};

use crate::fault::LineFault;
use config::cuts::{after, find};

#[derive(Drop)]
pub(crate) struct Words<'a> {
    // The bytes from the next word on, if there is one.
    rest: Option<&'a [u8]>,
}

impl<'a> Words<'a> {
    // The words of a line.
    pub(crate) fn of(line: &'a [u8]) -> Words<'a>
        ensures { left result ≡ fields line.now }
    {
        Words { rest: Some(line) }
    }

    // The next word.
    pub(crate) fn next(&mut self) -> Option<&'a [u8]>
        ensures { MatchOption result (left self.old ≡ []) (λ word. left self.old ≡ word.now ∷ left self.new) }
    {
        let bytes = self.rest?;
        let end = find(bytes, b' ');
        self.rest = if end < bytes.len() {
            Some(after(bytes, end))
        } else {
            None
        };
        Some(&bytes[0..end])
    }

    // No word is left. (One function for every count needs an array of references of any length, whose proof Rattle does not
    // write yet.)
    pub(crate) fn none(&mut self) -> Result<(), LineFault>
        ensures { NoMore (left self.old) result }
    {
        match self.next() {
            None => Ok(()),
            Some(_) => Err(LineFault::FieldCount),
        }
    }

    // The one word left.
    pub(crate) fn one(&mut self) -> Result<&'a [u8], LineFault>
        ensures { One (left self.old) result }
    {
        let word = self.next().ok_or(LineFault::FieldCount)?;
        self.none()?;
        Ok(word)
    }

    // The two words left.
    pub(crate) fn two(&mut self) -> Result<(&'a [u8], &'a [u8]), LineFault>
        ensures { Two (left self.old) result }
    {
        let word = self.next().ok_or(LineFault::FieldCount)?;
        let last = self.one()?;
        Ok((word, last))
    }

    // The three words left.
    pub(crate) fn three(&mut self) -> Result<(&'a [u8], &'a [u8], &'a [u8]), LineFault>
        ensures { Three (left self.old) result }
    {
        let word = self.next().ok_or(LineFault::FieldCount)?;
        let (next, last) = self.two()?;
        Ok((word, next, last))
    }
}
