// A line of values, read field by field.
pub mod steps;

// A line, read up to some field.
#[derive(Drop)]
pub struct Fields<'a> {
    // the line's number, from 1
    line: u32,
    // its bytes without the line feed
    bytes: &'a [u8],
    // those from the next field on, if there is one
    rest: Option<&'a [u8]>,
}
