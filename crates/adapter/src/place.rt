// A frame is placed slot by slot: admissions, then the slot's packet.
// What a frame's steps read (configuration and frame) and what they change (the memory) stay parameters: a struct over
// them would hold the memory by `&mut`, and each contract would have to say again which of its parts stay.

// How a frame stands so far.
#[derive(Clone, Copy)]
pub(crate) struct Course {
    // Packets dropped in this frame so far.
    pub(crate) drops: u32,
    // How many packets might wait elsewhere.
    pub(crate) doubt: u32,
    // Whether the doubt was 0 after some slot; it may have risen since.
    pub(crate) zero: bool,
}

pub(crate) mod frames;
pub(crate) mod slots;
