ghost use Rattle.std.specs.Prelude.{◌≡◌, None, Some, IfOk, IfErr};
ghost use Rattle.config.specs.Layout.{too_long};
ghost use Rattle.config.specs.Reading.{Next};

use crate::check::LONGEST;
use crate::cuts::{after, find};
use crate::fault::{TextFault, TextRefusal};
use crate::line::Line;
use crate::reader::Reader;

impl<'a> Reader<'a> {
    // A reader at the beginning of a text of at most 16,384 bytes.
    pub(crate) fn new(text: &'a [u8]) -> Result<Reader<'a>, TextFault>
        ensures ok { IfOk result (λ r. (too_long text.now ≡ None) × (r.text.now ≡ text.now) × (r.line ≡ 0)) }
        ensures err { IfErr result (λ e. too_long text.now ≡ Some e) }
    {
        if text.len() > LONGEST {
            return Err(TextRefusal::Names.at(0, 0));
        }
        Ok(Reader {
            text,
            rest: text,
            line: 0,
        })
    }

    // The next line.
    pub(crate) fn next_line(&mut self) -> Line<'a>
        ensures { Next self.old result self.new }
    {
        let rest = self.rest;
        let number = self.line + 1;
        if rest.is_empty() {
            return Line::new(number, None);
        }
        let end = find(rest, b'\n');
        self.rest = after(rest, end);
        self.line = number;
        Line::new(number, Some(&rest[0..end]))
    }
}
