// The two kinds of a parent's file. A file is pieces of one length, each with a packet at its end.
ghost use Rattle.std.specs.Prelude.{◌≡◌};
ghost use Rattle.feed.specs.Files.{kind_of, in_step, lead_of, length_of, stands as stands_at, may_stand, stamp_in};

use psi::packet::LENGTH;

#[derive(Clone, Copy, PartialEq, Eq, Debug)]
pub enum FileKind {
    // A piece is a packet.
    Plain,
    // A piece is a packet behind four bytes that have its arrival, its stamp.
    Timed,
}

impl FileKind {
    // The kind of a file that begins with these bytes, or `None` for one of neither kind.
    pub fn of(head: &[u8]) -> Option<FileKind>
        ensures { result ≡ kind_of head.now }
    {
        // Two tests in their order: of a `find` over a list of the two kinds the check does not see which one it found.
        if FileKind::Plain.fits(head) {
            Some(FileKind::Plain)
        } else if FileKind::Timed.fits(head) {
            Some(FileKind::Timed)
        } else {
            None
        }
    }

    // Whether a sync byte stands in the first piece, and in the next two as far as the bytes reach.
    fn fits(self, head: &[u8]) -> bool
        ensures { result ≡ in_step self head.now }
    {
        let first = self.lead();
        let second = first + self.length();
        let third = second + self.length();
        stands(head, first) && may_stand(head, second) && may_stand(head, third)
    }

    // How many bytes stand before the packet in a piece.
    pub fn lead(self) -> usize
        ensures { result ≡ lead_of self }
    {
        match self {
            FileKind::Plain => 0,
            FileKind::Timed => 4,
        }
    }

    // How many bytes a piece has.
    pub fn length(self) -> usize
        ensures { result ≡ length_of self }
    {
        self.lead() + LENGTH
    }
}

// Whether a sync byte stands at this place.
fn stands(head: &[u8], at: usize) -> bool
    ensures { result ≡ stands_at head.now at }
{
    head.get(at).is_some_and(|byte| *byte == 0x47)
}

// Whether a sync byte stands at this place, or the bytes end before it.
fn may_stand(head: &[u8], at: usize) -> bool
    ensures { result ≡ may_stand head.now at }
{
    head.get(at).is_none_or(|byte| *byte == 0x47)
}

// The stamp of a timed piece: the low 30 bits of its first four bytes.
pub fn stamp_of(piece: &[u8]) -> Option<u32>
    ensures { result ≡ stamp_in piece.now }
{
    let stamp = piece.first_chunk::<4>()?;
    Some(u32::from_be_bytes(*stamp) % (1 << 30))
}
