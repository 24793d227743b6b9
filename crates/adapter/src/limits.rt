// The largest numbers that the calls take.

// No time handed with a packet is later, and no frame starts later.
pub const LATEST: u64 = 1 << 60;
// No frame has more slots.
pub const MOST_SLOTS: u32 = 4096;
// 1,504 bits for each packet, 27,000,000 ticks to a second.
pub const TICK_BITS: u64 = 40_608_000_000;
