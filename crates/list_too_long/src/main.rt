// The header listing program, run on an input over its limit (document 01, "Numbers of the terminal"): a header that is
// accepted, with zeros behind it, 65,537 bytes in all, prints R01.
#![tactic(auto)]

use std::io;

fn main(rt: HostRuntime) -> io::Result<()> {
    list_input::list_input(&rt)
}
