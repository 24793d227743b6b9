// Accepted records: those of one number are to be equal.
use std::alloc::{AllocError, Global};

// As `Frame` of `rules` has it, but with an order, which the definitions have no use for.
#[derive(Clone, Copy, PartialEq, Eq, PartialOrd, Ord)]
pub(crate) struct Record {
    pub(crate) number: u32,
    pub(crate) start: u64,
    pub(crate) slots: u32,
}

// The numbers of which two records differ, each once, in order. (Sorted, records of one number stand side by side; a map
// of them by their number took two to three times as long.)
pub(crate) fn differing(
    heap: Global,
    first: &[Record],
    second: &[Record],
) -> Result<Vec<u32>, AllocError> {
    let mut all = Vec::new(heap);
    all.extend_from_slice(first)?;
    all.extend_from_slice(second)?;
    all.sort()?;
    let mut numbers = Vec::new(heap);
    for pair in all.windows(2) {
        if let [one, other] = pair {
            let is_known = numbers.last().copied() == Some(one.number);
            if one.number == other.number && one != other && !is_known {
                numbers.push(one.number)?;
            }
        }
    }
    Ok(numbers)
}
