// The bench program: records on standard input, their listing on standard output. Where the listing is
// not that of the whole input, or is not written, it says so on standard error.
#![tactic(auto)]

use std::io;

fn main(rt: HostRuntime) -> io::Result<()> {
    let printed = listing::print_listing(&mut rt.stdin(), &mut rt.stdout());
    if !printed.read {
        rt.eprintln("bench: cannot read the records")?;
    }
    if !printed.written {
        rt.eprintln("bench: cannot write the listing")?;
    }
    Ok(())
}
