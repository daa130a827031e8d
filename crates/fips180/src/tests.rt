// Digests and words from outside: by what a caller in another crate may name but for the tables, also with a word of its
// own. SHA-224 and SHA-384 are SHA-256 and SHA-512 from other initial hash values, with a shorter digest (FIPS 180-4,
// 5.3.2, 5.3.4, 6.3 and 6.5); their digests of "abc" are those of the standard's example pages.
ghost use Rattle.fips180.specs.Fips180 as fips180;
ghost use Rattle.fips180.specs.Blocked.{sha256_is_blocked};

use crate::tables::{K256, K512};
use crate::{Fed, State, Word, Working};
use refusals::Refusal;

const IV224: [u32; 8] = [
    0xc105_9ed8,
    0x367c_d507,
    0x3070_dd17,
    0xf70e_5939,
    0xffc0_0b31,
    0x6858_1511,
    0x64f9_8fa7,
    0xbefa_4fa4,
];

const ABC224: [u8; 28] = [
    0x23, 0x09, 0x7d, 0x22, 0x34, 0x05, 0xd8, 0x22, 0x86, 0x42, 0xa4, 0x77, 0xbd, 0xa2, 0x55, 0xb3,
    0x2a, 0xad, 0xbc, 0xe4, 0xbd, 0xa0, 0xb3, 0xf7, 0xe3, 0x6c, 0x9d, 0xa7,
];

const IV384: [u64; 8] = [
    0xcbbb_9d5d_c105_9ed8,
    0x629a_292a_367c_d507,
    0x9159_015a_3070_dd17,
    0x152f_ecd8_f70e_5939,
    0x6733_2667_ffc0_0b31,
    0x8eb4_4a87_6858_1511,
    0xdb0c_2e0d_64f9_8fa7,
    0x47b5_481d_befa_4fa4,
];

// A state of nothing yet.
fn start<W: Word, const B: usize>(iv: [W; 8]) -> State<W, B> {
    State {
        chain: Working::of(iv),
        buffer: [0u8; B],
        total: 0,
    }
}

// A message in two feeds.
fn fed<W: Word, const B: usize, const N: usize>(
    state: State<W, B>,
    k: &[W; N],
    front: &[u8],
    behind: &[u8],
) -> Fed<W, B> {
    state.feed_to(front, 1024, k).next.feed_to(behind, 1024, k)
}

#[test]
fn sha224_of_abc(rt: HostRuntime) {
    let found: [u8; 32] = fed::<u32, 64, 64>(start(IV224), &K256, b"a", b"bc")
        .next
        .finish::<64, 128, 32>(&K256);
    assert!(rt; found.starts_with(&ABC224));
}

#[test]
fn sha384_of_abc(rt: HostRuntime) {
    let found: [u8; 64] = fed::<u64, 128, 80>(start(IV384), &K512, b"ab", b"c")
        .next
        .finish::<80, 256, 64>(&K512);
    let expected: [u8; 48] = [
        0xcb, 0x00, 0x75, 0x3f, 0x45, 0xa3, 0x5e, 0x8b, 0xb5, 0xa0, 0x3d, 0x69, 0x9a, 0xc6, 0x50,
        0x07, 0x27, 0x2c, 0x32, 0xab, 0x0e, 0xde, 0xd1, 0x63, 0x1a, 0x8b, 0x60, 0x5a, 0x43, 0xff,
        0x5b, 0xed, 0x80, 0x86, 0x07, 0x2b, 0xa1, 0xe7, 0xcc, 0x23, 0x58, 0xba, 0xec, 0xa1, 0x34,
        0xc8, 0x25, 0xa7,
    ];
    assert!(rt; found.starts_with(&expected));
}

// A word as another crate brings it.
#[derive(Clone, Copy)]
struct Mine {
    n: u32,
}

impl Word for Mine {
    ghost sha2 = { fips180.sha256 };

    ghost number = { λ x. x.n };

    const ZERO: Mine = Mine { n: 0 };

    const BLOCK: usize = 64;

    ghost BLOCK = { 64 };

    ghost laws = { sha256_is_blocked };

    fn read(block: &[u8], i: usize) -> Mine {
        if i < block.len() / 4 {
            return Mine {
                n: words::be::u32_at(block, i * 4),
            };
        }
        Mine { n: 7 }
    }

    fn write(self, out: &mut [u8]) {
        self.n.write(out);
    }

    fn plus(self, other: Mine) -> Mine {
        Mine {
            n: self.n.plus(other.n),
        }
    }

    fn ch(self, y: Mine, z: Mine) -> Mine {
        Mine {
            n: self.n.ch(y.n, z.n),
        }
    }

    fn maj(self, y: Mine, z: Mine) -> Mine {
        Mine {
            n: self.n.maj(y.n, z.n),
        }
    }

    fn big_sigma0(self) -> Mine {
        Mine {
            n: self.n.big_sigma0(),
        }
    }

    fn big_sigma1(self) -> Mine {
        Mine {
            n: self.n.big_sigma1(),
        }
    }

    fn small_sigma0(self) -> Mine {
        Mine {
            n: self.n.small_sigma0(),
        }
    }

    fn small_sigma1(self) -> Mine {
        Mine {
            n: self.n.small_sigma1(),
        }
    }
}

#[test]
fn sha224_of_abc_in_own_words(rt: HostRuntime) {
    let iv = IV224.map(|n| Mine { n });
    let k = K256.map(|n| Mine { n });
    let found: [u8; 32] = fed::<Mine, 64, 64>(start(iv), &k, b"ab", b"c")
        .next
        .finish::<64, 128, 32>(&k);
    assert!(rt; found.starts_with(&ABC224));
}

#[test]
fn sizes_that_do_not_fit(rt: HostRuntime) {
    let wrong = State {
        chain: Working::of(IV224),
        buffer: [7u8; 32],
        total: 3,
    };
    let fed = wrong.feed_to(b"abc", 1024, &K256);
    assert!(rt; fed.outcome == Err(Refusal::TooLong));
    assert_eq!(rt; fed.next.total, 3);
    assert_eq!(rt; wrong.finish::<64, 64, 32>(&K256), [0u8; 32]);
    let few = [0u32; 12];
    assert!(rt;
        start::<u32, 64>(IV224).feed_to(b"abc", 1024, &few).outcome == Err(Refusal::TooLong)
    );
}

#[test]
fn functions_of_a_word(rt: HostRuntime) {
    let x: u32 = 1;
    assert_eq!(rt; x.big_sigma0(), 0x4008_0400);
    assert_eq!(rt; x.big_sigma1(), 0x0420_0080);
    assert_eq!(rt; x.small_sigma0(), 0x0200_4000);
    assert_eq!(rt; x.small_sigma1(), 0x0000_a000);
    let (y, z) = (0x1234_5678, 0x9abc_def0);
    let halves: u32 = 0xff00_ff00;
    assert_eq!(rt; halves.ch(y, z), 0x12bc_56f0);
    assert_eq!(rt; halves.maj(y, z), 0x9a34_de70);
    assert_eq!(rt; y.plus(0xffff_ffff), 0x1234_5677);
    let mut out = [9u8; 5];
    y.write(&mut out);
    assert_eq!(rt; out, [0x12, 0x34, 0x56, 0x78, 9]);
    assert_eq!(rt; Working::of(IV224).words(), IV224);
}

#[test]
fn words_behind_the_end(rt: HostRuntime) {
    assert_eq!(rt; u32::read(&[1, 2, 3, 4, 5], 1), 0x0500_0000);
    assert_eq!(rt;
        u64::read(&[1, 2, 3, 4, 5, 6, 7, 8, 9], 1),
        0x0900_0000_0000_0000
    );
    assert_eq!(rt;
        u64::read(&[1, 2, 3, 4, 5, 6, 7, 8, 9], 0x2000_0000_0000_0000),
        0
    );
}
