// What is told of two sites.
use crate::account::{Account, Parent};
use crate::comparison::Differences;
use crate::records::differing;
use crate::streams::broken_at;
use agreement::{agreed_from, in_common};
use std::alloc::{AllocError, Global};
use std::fmt;

// A parent whose packets do not follow one another, and where.
#[derive(Clone, Copy)]
struct Break {
    parent: usize,
    arrival: u64,
}

impl fmt::Display for Break {
    fn fmt<W: fmt::Write>(&self, f: &mut fmt::Formatter<W>) -> fmt::Result {
        let Break { parent, arrival } = self;
        write!(
            f,
            "packets of parent {parent} do not follow one another at {arrival}"
        )
    }
}

#[derive(Drop)]
pub(crate) struct Report {
    // Premises that fail.
    records: Vec<u32>,
    breaks: Vec<Break>,
    differences: Differences,
    common: usize,
    agreed: Option<u32>,
}

fn breaks(heap: Global, first: &[Parent], second: &[Parent]) -> Result<Vec<Break>, AllocError> {
    let mut breaks = Vec::new(heap);
    for (parent, (one, other)) in first.iter().zip(second).enumerate() {
        if let Some(arrival) = broken_at(heap, one.taken.as_slice(), other.taken.as_slice())? {
            breaks.push(Break { parent, arrival })?;
        }
    }
    Ok(breaks)
}

impl Report {
    pub(crate) fn new(heap: Global, one: &Account, other: &Account) -> Result<Report, AllocError> {
        let first = one.added.as_slice();
        let second = other.added.as_slice();
        Ok(Report {
            records: differing(heap, one.records.as_slice(), other.records.as_slice())?,
            breaks: breaks(heap, one.parents.as_slice(), other.parents.as_slice())?,
            differences: Differences::between(heap, first, second)?,
            common: in_common(first, second),
            agreed: agreed_from(first, second),
        })
    }

    // Whether every frame that both added is equal.
    pub(crate) fn all_equal(&self) -> bool {
        self.differences.shown.is_empty()
    }
}

impl fmt::Display for Report {
    fn fmt<W: fmt::Write>(&self, f: &mut fmt::Formatter<W>) -> fmt::Result {
        for number in self.records.iter() {
            writeln!(f, "records of frame {number} differ")?;
        }
        for at in self.breaks.iter() {
            writeln!(f, "{at}")?;
        }
        write!(f, "{}", self.differences)?;
        let common = self.common;
        writeln!(f, "both added {common}")?;
        match self.agreed {
            Some(frame) => writeln!(f, "agree from frame {frame}"),
            None if common == 0 => writeln!(f, "no frame in common"),
            None => writeln!(f, "no agreement"),
        }
    }
}
