// The key of a round, as planes that have it in each of eight blocks.
#[derive(Clone, Copy, Drop)]
pub(crate) struct RoundKey {
    pub(crate) planes: [[u8; 16]; 8],
}
