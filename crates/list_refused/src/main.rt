// The header listing program, run on a header that is refused (document 02, Items 3 and 8): R = 1 prints R20 133.
#![tactic(auto)]

use std::io;

fn main(rt: HostRuntime) -> io::Result<()> {
    list_input::list_input(&rt)
}
