// Transport packets: heads, stuffing, and a changed PID.
ghost use Rattle.std.specs.Prelude.{◌≡◌, length, IfSome, if◌then◌else◌, Some, None, Decides};
ghost use Rattle.psi.specs.Packet.{head_of, adaptation_in, good_packet, with_pid, Framed, stuffing as stuffing_bytes};

use crate::field::{ABOVE_PID, number_in, with_number};

// How many bytes a packet has.
pub const LENGTH: usize = 188;

// adaptation_field_control: what follows the head.
#[derive(Clone, Copy, Debug, PartialEq, Eq)]
pub enum Adaptation {
    Reserved,
    Payload,
    Field,
    Both,
}

// The head of a good packet, as far as anything looks at it.
#[derive(Clone, Copy, Debug, PartialEq, Eq)]
pub struct Head {
    // payload_unit_start_indicator
    pub start: bool,
    pub pid: u16,
    // transport_scrambling_control
    pub scrambling: u8,
    pub adaptation: Adaptation,
    // continuity_counter
    pub counter: u8,
}

impl Head {
    // The head of a packet, or `None` for one that is not good.
    pub fn of(packet: &[u8]) -> Option<Head>
        ensures { result ≡ head_of packet.now }
    {
        let [0x47, b1, b2, b3, rest @ ..] = packet else {
            return None;
        };
        if rest.len() != LENGTH - 4 || *b1 >= 0x80 {
            return None;
        }
        Some(Head {
            start: *b1 >> 6 == 1,
            pid: number_in::<ABOVE_PID>(*b1, *b2),
            scrambling: *b3 >> 6,
            adaptation: Adaptation::of(*b3 >> 4 & 3),
            counter: *b3 & 0x0f,
        })
    }
}

impl Adaptation {
    // Not `From<u8>`, since a control is two bits, and `Both` stands for each number above.
    fn of(control: u8) -> Adaptation
        ensures { result ≡ adaptation_in control }
    {
        match control {
            0 => Adaptation::Reserved,
            1 => Adaptation::Payload,
            2 => Adaptation::Field,
            _ => Adaptation::Both,
        }
    }
}

// Stuffing: what a slot takes that has nothing else to take.
#[tactic(auto, unfolding(crate::specs::Packet::stuffing))]
pub fn stuffing() -> [u8; LENGTH]
    ensures value { result ≡ stuffing_bytes }
    ensures framed { Framed result }
{
    let mut packet = [0xff; LENGTH];
    packet[0] = 0x47;
    packet[1] = 0x1f;
    packet[3] = 0x10;
    packet
}

// Whether a packet is stuffing, byte for byte. One of PID 8,191 with other bytes is not.
pub fn is_stuffing(packet: &[u8]) -> bool
    ensures { Decides result (packet.now ≡ stuffing_bytes) }
{
    packet == stuffing().as_slice()
}

// A good packet with another PID (of which the low 13 bits are taken), or `None` for one that is not good.
#[tactic(auto, using(crate::proofs::Packets::headed, crate::proofs::Packets::good_parts, crate::proofs::Packets::with_pid_framed))]
pub fn with_pid(packet: &[u8], pid: u16) -> Option<[u8; LENGTH]>
    ensures value { result ≡ (if good_packet packet.now then Some (with_pid pid packet.now) else None) }
    ensures framed { IfSome result Framed }
{
    Head::of(packet)?;
    Some(changed(packet, pid))
}

// A copy of a packet with another PID: of its bits only those 13 change.
#[tactic(auto, unfolding(crate::specs::Packet::with_pid))]
pub(crate) fn changed(packet: &[u8], pid: u16) -> [u8; LENGTH]
    requires { length packet.now ≡ 188 }
    ensures { result ≡ with_pid pid packet.now }
{
    let mut changed = [0; LENGTH];
    changed.copy_from_slice(packet);
    [changed[1], changed[2]] = with_number::<ABOVE_PID>(changed[1], pid);
    changed
}
