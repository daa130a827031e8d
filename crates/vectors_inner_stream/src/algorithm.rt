// The algorithms of an inner header.

// The two that are an inner stream's, and others.
#[derive(Clone, Copy)]
pub enum Algorithm {
    None,
    Arcfour,
    Salsa20,
    Chacha20,
    Four,
}

impl Algorithm {
    // The number in the inner header.
    pub fn number(self) -> u32 {
        match self {
            Algorithm::None => 0,
            Algorithm::Arcfour => 1,
            Algorithm::Salsa20 => 2,
            Algorithm::Chacha20 => 3,
            Algorithm::Four => 4,
        }
    }

    // The name in a row.
    pub fn name(self) -> &'static [u8] {
        match self {
            Algorithm::None => b"none",
            Algorithm::Arcfour => b"arcfour",
            Algorithm::Salsa20 => b"salsa20",
            Algorithm::Chacha20 => b"chacha20",
            Algorithm::Four => b"four",
        }
    }
}
