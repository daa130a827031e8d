// The rows of composite keys.
ghost use Rattle.std.specs.Prelude.{◌≤◌};

use refusals::limits::PASSWORD_LIMIT;
use std::io;

// A password, key file or pre-hash that is given, or bytes that are lent though none is.
#[derive(Clone, Copy)]
pub enum Credential<'a> {
    Given(&'a [u8]),
    Absent(&'a [u8]),
}

// No credential, and no bytes.
const NONE: Credential<'static> = Credential::Absent(b"");

impl<'a> Credential<'a> {
    // Bytes that are a credential where it is given.
    pub fn new(bytes: &'a [u8], given: bool) -> Self {
        if given {
            Credential::Given(bytes)
        } else {
            Credential::Absent(bytes)
        }
    }

    // The credential where it is given.
    fn given(self) -> Option<&'a [u8]> {
        match self {
            Credential::Given(s) => Some(s),
            Credential::Absent(_) => None,
        }
    }

    // The length of the part that it gives.
    fn part_length(self) -> usize
        ensures { result ≤ 32 }
    {
        match self {
            Credential::Given(_) => 32,
            Credential::Absent(_) => 0,
        }
    }
}

// The composite key of a password and a key file.
pub fn composite(
    rt: &impl Print,
    form: &[u8],
    password: Credential,
    key_file: Credential,
) -> io::Result<[u8; 32]> {
    let length = password.part_length() + key_file.part_length();
    row(rt, b"composite", form, length, password, key_file, NONE)
}

// The composite key of a pre-hash alone.
pub fn pre_hash(rt: &impl Print, form: &[u8], pre: &[u8]) -> io::Result<()> {
    with_pre_hash(rt, form, NONE, NONE, pre)
}

// The answer to a pre-hash with other credentials, or alone.
fn with_pre_hash(
    rt: &impl Print,
    form: &[u8],
    password: Credential,
    key_file: Credential,
    pre: &[u8],
) -> io::Result<()> {
    let given = Credential::Given(pre);
    row(rt, b"pre-hash", form, pre.len(), password, key_file, given)?;
    Ok(())
}

// The row of a composite key, and the key.
fn row(
    rt: &impl Print,
    name: &[u8],
    form: &[u8],
    length: usize,
    password: Credential,
    key_file: Credential,
    pre: Credential,
) -> io::Result<[u8; 32]> {
    let answer = keys::composite(password.given(), key_file.given(), pre.given());
    let key = answer.unwrap_or([0u8; 32]);
    vectors::row(rt, name, form, length, refusals::number(answer), &key)?;
    Ok(key)
}

// Every kind of credential, of bytes by rule.
pub fn kinds(rt: &impl Print) -> io::Result<()> {
    let mut m = [0u8; 64];
    vectors::pattern(&mut m);
    key_files(rt, &m)?;
    digits(rt)?;
    passwords(rt, vectors::first(&m, 32))?;
    pre_hashes(rt, &m)?;
    pre_hashes_with(rt, vectors::first(&m, 32))
}

// Key files of lengths around 32.
fn key_files(rt: &impl Print, m: &[u8]) -> io::Result<()> {
    for (form, n) in [
        ("key-file-0", 0),
        ("key-file-31", 31),
        ("key-file-32", 32),
        ("key-file-33", 33),
        ("key-file-64", 64),
    ] {
        let s = vectors::first(m, n);
        composite(rt, form.as_bytes(), NONE, Credential::Given(s))?;
    }
    Ok(())
}

// Key files that are hexadecimal digits, or nearly so, each alone, and with a password.
fn digits(rt: &impl Print) -> io::Result<()> {
    for (form, text) in DIGITS {
        let key_file = Credential::Given(text.as_bytes());
        composite(rt, form.as_bytes(), NONE, key_file)?;
        composite(
            rt,
            form.as_bytes(),
            Credential::Given(b"password"),
            key_file,
        )?;
    }
    Ok(())
}

// 64 digits in each case. Other numbers of digits: as many as bytes are taken as they stand, one fewer than are
// decoded, one more, and a line feed behind. 64 bytes of which one is no digit: the first, the last, and one between,
// each a neighbour of the digits in ASCII.
const DIGITS: [(&str, &str); 15] = [
    (
        "digits-upper",
        "00112233445566778899AABBCCDDEEFF0F1E2D3C4B5A69788796A5B4C3D2E1F0",
    ),
    (
        "digits-lower",
        "00112233445566778899aabbccddeeff0f1e2d3c4b5a69788796a5b4c3d2e1f0",
    ),
    (
        "digits-mixed",
        "00112233445566778899aAbBCcDdeEFf0f1E2d3C4b5A69788796A5b4C3d2E1f0",
    ),
    (
        "digits-decimal",
        "0011223344556677889900112233445566778899001122334455667788990011",
    ),
    ("digits-32", "00112233445566778899aabbccddeeff"),
    (
        "digits-63",
        "00112233445566778899aabbccddeeff0f1e2d3c4b5a69788796a5b4c3d2e1f",
    ),
    (
        "digits-65",
        "00112233445566778899aabbccddeeff0f1e2d3c4b5a69788796a5b4c3d2e1f00",
    ),
    (
        "digits-64-line-feed",
        "00112233445566778899aabbccddeeff0f1e2d3c4b5a69788796a5b4c3d2e1f0\n",
    ),
    (
        "digits-63-line-feed",
        "00112233445566778899aabbccddeeff0f1e2d3c4b5a69788796a5b4c3d2e1f\n",
    ),
    (
        "first-slash",
        "/0112233445566778899aabbccddeeff0f1e2d3c4b5a69788796a5b4c3d2e1f0",
    ),
    (
        "first-G",
        "G0112233445566778899aabbccddeeff0f1e2d3c4b5a69788796a5b4c3d2e1f0",
    ),
    (
        "middle-at",
        "00112233445566778899aabbccddeeff@f1e2d3c4b5a69788796a5b4c3d2e1f0",
    ),
    (
        "middle-g",
        "00112233445566778899aabbccddeeffgf1e2d3c4b5a69788796a5b4c3d2e1f0",
    ),
    (
        "last-colon",
        "00112233445566778899aabbccddeeff0f1e2d3c4b5a69788796a5b4c3d2e1f:",
    ),
    (
        "last-grave",
        "00112233445566778899aabbccddeeff0f1e2d3c4b5a69788796a5b4c3d2e1f`",
    ),
];

// No credential, an empty password, and bytes of a credential that is not given.
fn passwords(rt: &impl Print, file: &[u8]) -> io::Result<()> {
    let empty = Credential::Given(b"");
    let password = Credential::Given(b"password");
    let password_bytes = Credential::Absent(b"password");
    let key_file = Credential::Given(file);
    let key_file_bytes = Credential::Absent(file);
    for (form, password, key_file) in [
        ("none", NONE, NONE),
        ("none-but-bytes", password_bytes, key_file_bytes),
        ("empty-password", empty, NONE),
        ("empty-both", empty, empty),
        ("absent-password-but-bytes", password_bytes, key_file),
        ("absent-key-file-but-bytes", password, key_file_bytes),
    ] {
        composite(rt, form.as_bytes(), password, key_file)?;
    }
    Ok(())
}

// A pre-hash of lengths around 32.
fn pre_hashes(rt: &impl Print, m: &[u8]) -> io::Result<()> {
    for n in [0, 31, 32, 33] {
        pre_hash(rt, b"alone", vectors::first(m, n))?;
    }
    Ok(())
}

// A pre-hash with each other credential, and with bytes of those that are not given.
fn pre_hashes_with(rt: &impl Print, pre: &[u8]) -> io::Result<()> {
    let password = Credential::Given(b"password");
    let key_file = Credential::Given(pre);
    for (form, password, key_file) in [
        ("with-password", password, NONE),
        ("with-empty-password", Credential::Given(b""), NONE),
        ("with-key-file", NONE, key_file),
        ("with-both", password, key_file),
        (
            "beside-bytes",
            Credential::Absent(b"password"),
            Credential::Absent(pre),
        ),
    ] {
        with_pre_hash(rt, form.as_bytes(), password, key_file, pre)?;
    }
    Ok(())
}

// A password and a key file that are one byte too long, which is judged before a pre-hash is, and the longest ones.
pub fn limits(rt: &(impl Print + Alloc)) -> io::Result<()> {
    let bytes = vec![in rt.alloc(); b'a'; PASSWORD_LIMIT + 1]?;
    let longest = Credential::Given(vectors::first(&bytes, PASSWORD_LIMIT));
    let over = Credential::Given(&bytes);
    composite(rt, b"longest-password", longest, NONE)?;
    composite(rt, b"longest-both", longest, longest)?;
    composite(rt, b"over-password", over, NONE)?;
    composite(rt, b"over-key-file", NONE, over)?;
    with_pre_hash(rt, b"with-over-password", over, NONE, b"")?;
    with_pre_hash(rt, b"with-over-key-file", NONE, over, b"")?;
    pre_hash(rt, b"over-a-file", &bytes)
}
