// A line of the text, and what it says at its place.
pub mod places;

// A line as it was read.
#[derive(Clone, Copy)]
pub struct Line<'a> {
    // its number, from 1
    number: u32,
    // its bytes without the line feed; none where the text has ended before it
    bytes: Option<&'a [u8]>,
}
