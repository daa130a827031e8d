// The most that the terminal takes of each thing (document 01, "Numbers of the terminal"; document 02, Item 1: the
// inner stream; Item 7: file, payload, message and written block), the least rounds of a vault (Item 3), and the bounds
// of Argon2's figures (Item 6). A limit is inclusive.
ghost use Rattle.std.specs.Prelude.{◌≡◌, ◌+◌, leb};
ghost use Rattle.refusals.specs.Limits as limits;

// A file, read or written, in bytes.
pub const FILE_LIMIT: usize = 16_777_216;
// A payload, read or written, in bytes.
pub const PAYLOAD_LIMIT: usize = 16_777_216;
// A password, in bytes.
pub const PASSWORD_LIMIT: usize = 4_194_304;
// A key file, in bytes.
pub const KEY_FILE_LIMIT: usize = 4_194_304;
// One hash or tag message in all, in bytes.
pub const MESSAGE_LIMIT: usize = 33_554_432;
// Rounds of the key transformation.
pub const ROUNDS_LIMIT: u64 = 4_000_000;
// The least rounds of AES-KDF in a vault that is read or written.
pub const ROUNDS_LEAST: u64 = 6_000;
// The inner stream, in bytes: its key, and where a stretch of it ends.
pub const STREAM_LIMIT: u64 = 4_194_304;
// Ciphertext in a block that is written, in bytes.
pub const WRITTEN_BLOCK: usize = 1_048_576;
// A PC program's input, in bytes.
pub const PROGRAM_LIMIT: usize = 65_536;

// An Argon2 salt, in bytes.
pub const SALT_LEAST: u64 = 8;

pub const SALT_MOST: u64 = 64;
// Argon2's passes.
pub const PASSES_LEAST: u64 = 1;

pub const PASSES_MOST: u64 = 64;
// Argon2's memory, in bytes, and what each lane needs of it.
pub const MEMORY_LEAST: u64 = 8_192;

pub const MEMORY_MOST: u64 = 67_108_864;

pub const LANE_MEMORY: u64 = 8_192;
// Argon2's lanes.
pub const LANES_LEAST: u64 = 1;

pub const LANES_MOST: u64 = 16;

// Whether a file, read or written may have so many bytes.
pub fn file_fits(n: usize) -> bool
    ensures { result ≡ leb n limits.file_limit }
{
    n <= FILE_LIMIT
}

// Whether a payload, read or written may have so many bytes.
pub fn payload_fits(n: usize) -> bool
    ensures { result ≡ leb n limits.payload_limit }
{
    n <= PAYLOAD_LIMIT
}

// Whether a password may have so many bytes.
pub fn password_fits(n: usize) -> bool
    ensures { result ≡ leb n limits.password_limit }
{
    n <= PASSWORD_LIMIT
}

// Whether a key file may have so many bytes.
pub fn key_file_fits(n: usize) -> bool
    ensures { result ≡ leb n limits.key_file_limit }
{
    n <= KEY_FILE_LIMIT
}

// Whether one hash or tag message in all may have so many bytes.
pub fn message_fits(n: usize) -> bool
    ensures { result ≡ leb n limits.message_limit }
{
    n <= MESSAGE_LIMIT
}

// Whether the terminal runs so many rounds.
pub fn rounds_fit(n: u64) -> bool
    ensures { result ≡ leb n limits.rounds_limit }
{
    n <= ROUNDS_LIMIT
}

// Whether so many rounds are enough for a vault.
pub fn rounds_suffice(n: u64) -> bool
    ensures { result ≡ leb limits.rounds_least n }
{
    ROUNDS_LEAST <= n
}

// Whether the key of an inner stream may have so many bytes.
pub fn stream_key_fits(n: usize) -> bool
    ensures { result ≡ leb n limits.stream_limit }
{
    n as u64 <= STREAM_LIMIT
}

// Whether an inner stream may have a stretch of n bytes at a position.
pub fn stretch_fits(position: u64, n: usize) -> bool
    ensures { result ≡ leb (position + n) limits.stream_limit }
{
    if STREAM_LIMIT < position {
        return false;
    }
    n as u64 <= STREAM_LIMIT - position
}

// Whether a PC program's input may have so many bytes.
pub fn program_input_fits(n: usize) -> bool
    ensures { result ≡ leb n limits.program_limit }
{
    n <= PROGRAM_LIMIT
}

// How many bytes of ciphertext a written block has, all but perhaps the last.
pub fn written_block() -> usize
    ensures { result ≡ limits.written_block }
{
    WRITTEN_BLOCK
}

// Whether a number is from the least to the most.
fn is_within(n: u64, least: u64, most: u64) -> bool
    ensures { result ≡ limits.within n least most }
{
    if n < least {
        return false;
    }
    n <= most
}

// Whether an Argon2 salt may have so many bytes.
pub fn salt_fits(n: usize) -> bool
    ensures { result ≡ limits.salt_fits n }
{
    is_within(n as u64, SALT_LEAST, SALT_MOST)
}

// Whether Argon2 runs so many passes.
pub fn passes_fit(n: u64) -> bool
    ensures { result ≡ limits.passes_fit n }
{
    is_within(n, PASSES_LEAST, PASSES_MOST)
}

// Whether Argon2 runs in so many bytes of memory.
pub fn memory_fits(n: u64) -> bool
    ensures { result ≡ limits.memory_fits n }
{
    is_within(n, MEMORY_LEAST, MEMORY_MOST)
}

// Whether Argon2 runs in so many lanes.
pub fn lanes_fit(n: u32) -> bool
    ensures { result ≡ limits.lanes_fit n }
{
    is_within(n as u64, LANES_LEAST, LANES_MOST)
}

// Whether the terminal runs Argon2 with such figures: the salt's bytes, the passes, the memory's bytes, the lanes.
pub fn argon2_figures_fit(salt_len: usize, passes: u64, memory: u64, lanes: u32) -> bool
    ensures { result ≡ limits.argon2_fits salt_len passes memory lanes }
{
    let p = lanes as u64;
    if is_within(salt_len as u64, SALT_LEAST, SALT_MOST) {
        if is_within(passes, PASSES_LEAST, PASSES_MOST) {
            if is_within(memory, MEMORY_LEAST, MEMORY_MOST) {
                if is_within(p, LANES_LEAST, LANES_MOST) {
                    return LANE_MEMORY * p <= memory;
                }
                return false;
            }
            return false;
        }
        return false;
    }
    false
}
