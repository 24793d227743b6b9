// The text reader: line by line, and each line field by field.
ghost use Rattle.std.specs.Prelude.{◌≡◌, ◌+◌, ◌≤◌, length, drop};
ghost use Rattle.config.specs.Text.{lines};

pub mod steps;

// A text, read up to some line.
#[derive(Drop)]
pub struct Reader<'a> {
    text: &'a [u8],
    // what has not been read
    rest: &'a [u8],
    // how many lines have been read
    line: u32,
    ghost place: { lines rest.now ≡ drop line (lines text.now) },
    ghost short: { line + length rest.now ≤ 16384 },
}
