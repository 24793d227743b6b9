// What the map makes of a parent's packet.
ghost use Rattle.std.specs.Prelude.{◌≡◌, IfSome, if◌then◌else◌, Some, None};
ghost use Rattle.config.specs.Setup.{setup};
ghost use Rattle.psi.specs.Delivery.{deliver_by, deliver as delivery_of, answer, Leaves};
ghost use Rattle.psi.specs.Packet.{good_packet};

use crate::lookup::find_row;
use crate::packet::{Head, LENGTH, changed};
use crate::pmt::patch;
use config::row::{Kind, Row};
use config::table::Config;

// The packet is not 188 bytes long, does not begin with the sync byte, or has its error indicator set.
#[derive(Clone, Copy, Debug, PartialEq, Eq)]
pub struct BadPacket;

// What becomes of a good packet.
#[derive(Debug, Drop, PartialEq, Eq)]
pub enum Delivered {
    // no row is for it
    Unmapped,
    // its row is a `pmt` row, and it is not patchable
    Unpatchable,
    // the number of its row, and the packet as it leaves
    Deliverable(usize, [u8; LENGTH]),
}

// What the map makes of a parent's packet.
#[tactic(auto, unfolding(crate::specs::Delivery::deliver))]
pub fn deliver(config: &Config, parent: u8, packet: &[u8]) -> Result<Delivered, BadPacket>
    ensures value { answer result ≡ (if good_packet packet.now then Some (delivery_of (setup config.now) parent packet.now) else None) }
    ensures leaves { IfSome (answer result) (Leaves (setup config.now).rows) }
{
    deliver_by(config.rows(), parent, packet)
}

// The same by the rows of a map.
#[tactic(auto, using(crate::proofs::Packets::headed, crate::proofs::Packets::good_parts))]
pub fn deliver_by(rows: &[Row], parent: u8, packet: &[u8]) -> Result<Delivered, BadPacket>
    ensures value { answer result ≡ (if good_packet packet.now then Some (deliver_by rows.now parent packet.now) else None) }
    ensures leaves { IfSome (answer result) (Leaves rows.now) }
{
    let head = Head::of(packet).ok_or(BadPacket)?;
    let Some((number, row)) = find_row(rows, parent, head.pid) else {
        return Ok(Delivered::Unmapped);
    };
    let left = match row.kind {
        Kind::Pass => Some(changed(packet, row.out)),
        Kind::Pmt => patch(rows, &row, packet),
    };
    Ok(match left {
        Some(bytes) => Delivered::Deliverable(number, bytes),
        None => Delivered::Unpatchable,
    })
}
