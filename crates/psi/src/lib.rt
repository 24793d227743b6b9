// Transport packets and the two tables that are written: heads, stuffing, CRC-32, PAT copies, patched PMTs.
#![tactic(auto)]

pub mod crc;
pub mod delivery;
mod field;
pub mod lookup;
pub mod packet;
pub mod pat;
mod place;
pub mod pmt;
