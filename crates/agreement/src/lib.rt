// The frames that two sites added, and from which of them on the two agree.
#![tactic(auto)]

ghost use Rattle.std.specs.Prelude.{◌≡◌, ◌&&◌, position, ◌==◌, not, nat_le};
ghost use Rattle.std.specs.List.{list_any, zip};
ghost use Rattle.agreement.specs.Agreement.{packets_in, PartsAt, FirstDifference, is_among, common_in, differ_in, EqualFrom, Agreed, lower};

// A packet has so many bytes. The number stands here once more, since this crate needs no other crate.
const PACKET: usize = 188;

// A frame that a site added: its number, and its packets end to end.
#[derive(Drop)]
pub struct Added {
    pub number: u32,
    pub packets: Vec<u8>,
}

// The first place at which two texts have different bytes.
fn first_other(x: &[u8], y: &[u8]) -> Option<usize>
    ensures { result ≡ position (λ p. not (p.0 == p.1)) (zip x.now y.now) }
{
    x.iter().zip(y).position(|(a, b)| a != b)
}

// The first byte at which two texts differ; where one is the front of the other, the byte behind it.
fn parts_at(x: &[u8], y: &[u8]) -> Option<usize>
    ensures { PartsAt x.now y.now result }
{
    let end = if x.len() == y.len() {
        None
    } else {
        Some(x.len().min(y.len()))
    };
    first_other(x, y).or(end)
}

// The first slot at which two frames differ.
pub fn differ_at(x: &Added, y: &Added) -> Option<usize>
    ensures { FirstDifference (packets_in x.now) (packets_in y.now) result }
{
    parts_at(&x.packets, &y.packets).map(|i| i / PACKET)
}

// Whether one of the frames has this number. Frames are searched where they stand: a map of them would allocate, and none of these calls can fail.
fn are_with(frames: &[Added], number: u32) -> bool
    ensures { result ≡ is_among frames.now number }
{
    frames.iter().any(|frame| frame.number == number)
}

// Whether one of the frames has the number of x and other packets.
fn differs_among(x: &Added, frames: &[Added]) -> bool
    ensures { result ≡ list_any (differ_in x.now) frames.now }
{
    frames
        .iter()
        .any(|y| x.number == y.number && x.packets != y.packets)
}

// The lowest number from which on no two frames of one number differ.
fn equal_from(first: &[Added], second: &[Added]) -> u64
    ensures { EqualFrom first.now second.now result }
{
    let unequal = first.iter().filter(|x| differs_among(x, second));
    unequal.map(|x| u64::from(x.number) + 1).max().unwrap_or(0)
}

// How many frames of the first the second added too.
pub fn in_common(first: &[Added], second: &[Added]) -> usize
    ensures { result ≡ common_in first.now second.now }
{
    first.iter().filter(|x| are_with(second, x.number)).count()
}

// Whether a number is no lower than `from`, lower than the lowest so far, and that of one of the frames. They are searched last, and only if the rest holds.
fn is_next(number: u32, from: u64, lowest: Option<u32>, frames: &[Added]) -> bool
    ensures { result ≡ (nat_le from number && lower number lowest && is_among frames.now number) }
{
    from <= u64::from(number)
        && lowest.is_none_or(|lowest| number < lowest)
        && are_with(frames, number)
}

// The lowest number of a frame that both added from which on all that both added is equal.
pub fn agreed_from(first: &[Added], second: &[Added]) -> Option<u32>
    ensures { Agreed first.now second.now result }
{
    let from = equal_from(first, second);
    first.iter().fold(None, |lowest, x| {
        if is_next(x.number, from, lowest, second) {
            Some(x.number)
        } else {
            lowest
        }
    })
}
