// Opens a vault and writes its XML document to standard output:
//
//   open VAULT [KEYFILE]
//
// The password is the first line of standard input, without its line feed; an empty line is an empty password. Where
// standard input is empty there is no password, and the key file alone opens the vault. Vault, key file and password
// have at most 65,536 bytes each. While the rounds run, the share that is done stands on standard error. Nothing is
// written to standard output before the closing block was accepted; a refusal is a line on standard error. What is
// opened is `unlocking::unlock`'s.
//
// Argon2's memory is on the stack. A vault that needs no more than 4 MiB opens on the usual stack of 8 MiB; one that
// needs more opens where the stack may have 80 MiB (examples/open.sh asks for that). Where the stack may not have as
// much as the memory asks for, the vault is refused with 17.
#![tactic(auto)]

ghost use Rattle.std.specs.Prelude.{◌≤◌};

use std::env::{Env, FillError};
use std::io;
use std::io::IsTerminal;
use unlocking::{Unlocked, input, stack};

// Words of memory that the usual stack has room for: 4 MiB.
const FEW: usize = 524_288;
// Bytes of stack that have room for those.
const SMALL_STACK: u32 = 6_291_456;
// The most words that a key needs: 64 MiB.
const MUCH: usize = 8_388_608;
// Bytes of stack that have room for those.
const LARGE_STACK: u32 = 83_886_080;

// A vault's bytes, and the credentials that are given.
#[derive(Clone, Copy)]
struct Locked<'a> {
    file: &'a [u8],
    password: Option<&'a [u8]>,
    key_file: Option<&'a [u8]>,
}

fn main(rt: HostRuntime) -> io::Result<()> {
    match (1..4).take_while(|i| is_given(&rt, *i)).count() {
        1 => open_vault(&rt, false),
        2 => open_vault(&rt, true),
        _ => eprintln!(rt;
            "Use: open VAULT [KEYFILE], with the password as a line on standard input"
        ),
    }
}

// Whether the program has an argument i.
fn is_given(rt: &HostRuntime, i: usize) -> bool {
    !matches!(rt.arg(i, &mut []), Err(FillError::NotPresent))
}

// Reads the file that an argument names into `buf`, and answers how many bytes those are; says why not, and answers
// none, where it cannot be opened.
fn read_named(rt: &HostRuntime, i: usize, buf: &mut [u8]) -> io::Result<Option<usize>> {
    let mut path = console::buffer();
    let n = rt.arg(i, &mut path).unwrap_or(0);
    match input::read_file(rt, &path[..n], buf) {
        Ok(read) => Ok(Some(read)),
        Err(why) => {
            fail(rt, &path[..n], why)?;
            Ok(None)
        }
    }
}

// The text of an error of the system, without its number at the end.
fn without_number(text: &str) -> &str {
    match text.split_once(" (os error ") {
        Some((said, _)) => said,
        None => text,
    }
}

// Writes a line to standard error: what failed, a colon and why.
fn fail(rt: &HostRuntime, what: &[u8], why: io::Error) -> io::Result<()> {
    rt.stderr().write_all(what)?;
    match format!(in rt.alloc(); "{why}") {
        Ok(text) => {
            let said = without_number(text.as_str());
            eprintln!(rt; ": {said}")
        }
        Err(_) => eprintln!(rt; ": {why}"),
    }
}

// Opens the vault that the first argument names.
fn open_vault(rt: &HostRuntime, has_key_file: bool) -> io::Result<()> {
    let mut space = input::room();
    match read_named(rt, 1, &mut space)? {
        Some(n) => open_file(rt, slices::part(&space, 0, n), has_key_file),
        None => Ok(()),
    }
}

// Opens a vault, with the key file that the second argument names where there is one.
fn open_file(rt: &HostRuntime, file: &[u8], has_key_file: bool) -> io::Result<()> {
    if !has_key_file {
        return open_typed(rt, file, None);
    }
    let mut space = input::room();
    match read_named(rt, 2, &mut space)? {
        Some(n) => open_typed(rt, file, Some(slices::part(&space, 0, n))),
        None => Ok(()),
    }
}

// Opens a vault, with the password of standard input where there is one, and with as much memory as its key needs.
fn open_typed<'a>(rt: &HostRuntime, file: &'a [u8], key_file: Option<&'a [u8]>) -> io::Result<()> {
    ask(rt);
    let mut space = input::room();
    let typed = input::read_line(&mut rt.stdin(), &mut space);
    let password = typed.map(|n| slices::part(&space, 0, n));
    let locked = Locked {
        file,
        password,
        key_file,
    };
    open_lent(rt, locked, unlocking::words_needed(file))
}

// Asks for the password where someone types it.
fn ask(rt: &HostRuntime) {
    if rt.stdin().is_terminal() {
        let _ = eprint!(rt; "Password (shown as it is typed): ");
    }
}

// How many words of memory the stack has room for.
fn room(rt: &HostRuntime) -> usize {
    if stack::has_room(rt, LARGE_STACK) {
        return MUCH;
    }
    if stack::has_room(rt, SMALL_STACK) {
        return FEW;
    }
    0
}

// Opens a vault in so many words of memory, or in as many as the stack has room for. It calls itself, so that the
// compiler gives the functions that hold the memory frames of their own: a vault that needs few words takes few.
fn open_lent(rt: &HostRuntime, locked: Locked, words: usize) -> io::Result<()> {
    if words == 0 {
        return open_in::<0>(rt, locked);
    }
    let most = room(rt);
    if most < words {
        open_lent(rt, locked, most)?;
        return tell_need(rt, words, most);
    }
    if words <= FEW {
        return open_in::<FEW>(rt, locked);
    }
    open_in::<MUCH>(rt, locked)
}

// Tells how much memory a vault needs that the stack has no room for.
fn tell_need(rt: &HostRuntime, words: usize, most: usize) -> io::Result<()> {
    let needed = words / 128;
    let there = most / 128;
    eprintln!(rt;
        "The vault's key needs {needed} KiB of memory, and the stack has room for {there} KiB."
    )
}

// Opens a vault in WORDS words of memory.
fn open_in<const WORDS: usize>(rt: &HostRuntime, locked: Locked) -> io::Result<()>
    requires { WORDS ≤ 8388608 }
{
    let mut memory = [0u64; WORDS];
    open_with(rt, locked, &mut memory)
}

// Opens a vault in lent memory, and writes its document or why it is refused.
fn open_with(rt: &HostRuntime, locked: Locked, memory: &mut [u64]) -> io::Result<()> {
    let mut out = console::large_buffer();
    match unlocking::unlock(
        rt,
        locked.file,
        locked.password,
        locked.key_file,
        &mut out,
        memory,
    ) {
        Unlocked::Refused(why) => unlocking::report::refusal(&rt.stderr(), why),
        Unlocked::PayloadRefused(why) => unlocking::report::payload_refusal(&rt.stderr(), why),
        Unlocked::Document(start, end) => {
            rt.write_all(slices::part(slices::part(&out, 0, end), start, end))
        }
    }
}
