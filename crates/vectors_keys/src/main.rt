// The keys of vaults that other programs wrote, and the composite key of every kind of credential.
//
// A row is `name form length number key` (the crate `vectors`). The names: `composite`, of a password and a key file,
// the length being that of the parts that are hashed; `pre-hash`, of a pre-hash of that length; `cipher-key`,
// `tag-base` and `tag-key-I`, the tag key of the number I, of the master seed and the transformed key. The form is the
// vault's name or what is given. Standard input has a line for each vault: its name, password, key file, master seed
// and transformed key, which is absent where the vault has none within the limits. tools/vectors_keys.py writes stdin
// and stdout, with Python's hashlib, that is with OpenSSL.
#![tactic(auto)]

use std::io;
use vectors::table::{self, Lines};

mod credentials;
mod vault;

fn main(rt: HostRuntime) -> io::Result<()> {
    let cases = table::read(&rt, 65_536)?;
    for line in Lines::of(&cases) {
        vault::keys_of(&rt, line)?;
    }
    credentials::kinds(&rt)?;
    credentials::limits(&rt)
}
