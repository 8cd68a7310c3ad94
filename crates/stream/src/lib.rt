// The stream of an image: definitions in specs/, rows computed from them in proofs/.
#![tactic(auto)]

// Eight blocks of 64 bytes, whatever a store's measures are.
#[derive(Clone, Copy)]
pub struct Group(pub u32);

impl Group {
    pub const BLOCKS: usize = 8;

    pub const BYTES: usize = 512;
}
