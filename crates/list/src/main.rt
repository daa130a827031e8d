// The header listing program (document 01, "Numbers to meet"): it lists the header of the vault on standard input.
//
// Its stored input is the header of document 01's example with zeros behind it, 65,536 bytes in all: the longest that
// is taken.
#![tactic(auto)]

use std::io;

fn main(rt: HostRuntime) -> io::Result<()> {
    list_input::list_input(&rt)
}
