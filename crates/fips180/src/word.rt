// FIPS 180-4, 4.1.2 and 4.1.3: the words of SHA-256 and of SHA-512, with all that the two do differently.
ghost use Rattle.std.specs.Prelude.{◌≡◌, ◌+◌, ◌*◌, ◌≤◌, length, take, ℕ};
ghost use Rattle.slices.specs.Over.{over};
ghost use Rattle.words.specs.Endian.{be, be_bytes};
ghost use Rattle.words.specs.Word as word;
ghost use Rattle.fips180.specs.Fips180 as fips180;
ghost use Rattle.fips180.specs.Fips180.{Sha2};
ghost use Rattle.fips180.specs.Blocked.{IsBlocked, sha256_is_blocked, sha512_is_blocked};

use words::{plus32, plus64};

// A word of one of the two algorithms.
pub trait Word: Copy {
    // The algorithm.
    ghost sha2: { Sha2 };

    // The number that a word is.
    ghost number: { Self → ℕ };

    const ZERO: Self;

    // How many bytes a block has.
    const BLOCK: usize;

    ghost BLOCK: { ℕ };

    // The word at a place among the words of a block. Where the block does not have it whole, any word.
    fn read(block: &[u8], i: usize) -> Self
        ensures { i * sha2.bytes + sha2.bytes ≤ length block.now → number result ≡ be sha2.bytes block.now (i * sha2.bytes) };

    // The bytes of a word, written over the front of `out`.
    fn write(self, out: &mut [u8])
        ensures { out.new ≡ over (take (length out.old) (be_bytes sha2.bytes (number self))) out.old };

    // The sum of two words.
    fn plus(self, other: Self) -> Self
        ensures { number result ≡ word.plus sha2.bits (number self) (number other) };

    // Equations 4.2 and 4.8.
    fn ch(self, y: Self, z: Self) -> Self
        ensures { number result ≡ fips180.ch sha2.bits (number self) (number y) (number z) };

    // Equations 4.3 and 4.9.
    fn maj(self, y: Self, z: Self) -> Self
        ensures { number result ≡ fips180.maj (number self) (number y) (number z) };

    // Equations 4.4 and 4.10.
    fn big_sigma0(self) -> Self
        ensures { number result ≡ sha2.big_sigma0 (number self) };

    // Equations 4.5 and 4.11.
    fn big_sigma1(self) -> Self
        ensures { number result ≡ sha2.big_sigma1 (number self) };

    // Equations 4.6 and 4.12.
    fn small_sigma0(self) -> Self
        ensures { number result ≡ sha2.small_sigma0 (number self) };

    // Equations 4.7 and 4.13.
    fn small_sigma1(self) -> Self
        ensures { number result ≡ sha2.small_sigma1 (number self) };

    ghost laws: { IsBlocked sha2 BLOCK };
}

impl Word for u32 {
    ghost sha2 = { fips180.sha256 };

    ghost number = { λ x. x };

    const ZERO: u32 = 0;

    const BLOCK: usize = 64;

    ghost BLOCK = { 64 };

    ghost laws = { sha256_is_blocked };

    // A byte behind the end counts as zero.
    fn read(block: &[u8], i: usize) -> u32
        ensures { result ≡ be 4 block.now (i * 4) }
    {
        words::be::u32_at(block, i.saturating_mul(4))
    }

    fn write(self, out: &mut [u8]) {
        slices::copy(out, &words::be::bytes32(self));
    }

    fn plus(self, other: u32) -> u32 {
        plus32(self, other)
    }

    fn ch(self, y: u32, z: u32) -> u32 {
        (self & y) ^ ((self ^ 0xffff_ffff) & z)
    }

    fn maj(self, y: u32, z: u32) -> u32 {
        (self & y) ^ (self & z) ^ (y & z)
    }

    fn big_sigma0(self) -> u32 {
        self.rotate_right(2) ^ self.rotate_right(13) ^ self.rotate_right(22)
    }

    fn big_sigma1(self) -> u32 {
        self.rotate_right(6) ^ self.rotate_right(11) ^ self.rotate_right(25)
    }

    fn small_sigma0(self) -> u32 {
        self.rotate_right(7) ^ self.rotate_right(18) ^ (self >> 3)
    }

    fn small_sigma1(self) -> u32 {
        self.rotate_right(17) ^ self.rotate_right(19) ^ (self >> 10)
    }
}

impl Word for u64 {
    ghost sha2 = { fips180.sha512 };

    ghost number = { λ x. x };

    const ZERO: u64 = 0;

    const BLOCK: usize = 128;

    ghost BLOCK = { 128 };

    ghost laws = { sha512_is_blocked };

    // A byte behind the end counts as zero.
    fn read(block: &[u8], i: usize) -> u64
        ensures { result ≡ be 8 block.now (i * 8) }
    {
        words::be::u64_at(block, i.saturating_mul(8))
    }

    fn write(self, out: &mut [u8]) {
        slices::copy(out, &words::be::bytes64(self));
    }

    fn plus(self, other: u64) -> u64 {
        plus64(self, other)
    }

    fn ch(self, y: u64, z: u64) -> u64 {
        (self & y) ^ ((self ^ 0xffff_ffff_ffff_ffff) & z)
    }

    fn maj(self, y: u64, z: u64) -> u64 {
        (self & y) ^ (self & z) ^ (y & z)
    }

    fn big_sigma0(self) -> u64 {
        self.rotate_right(28) ^ self.rotate_right(34) ^ self.rotate_right(39)
    }

    fn big_sigma1(self) -> u64 {
        self.rotate_right(14) ^ self.rotate_right(18) ^ self.rotate_right(41)
    }

    fn small_sigma0(self) -> u64 {
        self.rotate_right(1) ^ self.rotate_right(8) ^ (self >> 7)
    }

    fn small_sigma1(self) -> u64 {
        self.rotate_right(19) ^ self.rotate_right(61) ^ (self >> 6)
    }
}
