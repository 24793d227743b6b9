// A log, line by line.
use crate::reply::Reply;
use crate::site::Site;
use sitelog::fault::Fault;
use sitelog::line::{is_silent, read_line};
use sitelog::stop::Stop;
use std::alloc::Global;
use std::io::{BufRead, BufReader, Read, Write};

// What a line answers; nothing where it is empty or a comment.
fn answer(heap: Global, site: &mut Site, line: &[u8]) -> Result<Option<Reply>, Fault> {
    if is_silent(line) {
        return Ok(None);
    }
    let call = read_line(heap, line)?;
    Ok(Some(site.answer(call)?))
}

// Replays a log at a site, and prints the answers. (`racks` goes over lines too, and prints nothing: one function for both
// would have to hand on faults of a line and of the output.)
pub(crate) fn replay<R: Read, W: Write>(
    heap: Global,
    site: &mut Site,
    log: R,
    out: &mut W,
) -> Result<(), Stop>
where
    R: Drop,
{
    for (index, line) in BufReader::new(heap, log)?.lines(heap).enumerate() {
        let reply = line
            .map_err(Fault::Unreadable)
            .and_then(|line| answer(heap, site, line.as_bytes()))
            .map_err(|fault| Stop::Line {
                log: None,
                number: (index + 1) as u64,
                fault,
            })?;
        if let Some(reply) = reply {
            writeln!(out, "{reply}")?;
        }
    }
    Ok(())
}
