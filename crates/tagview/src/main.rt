// Lists the dump of a tag that is read from standard input.
#![tactic(auto)]

use listing::listing;
use std::io::Read;

fn main(rt: HostRuntime) -> anyhow::Result<()> {
    let mut bytes = Vec::new(rt.alloc());
    rt.stdin().read_to_end(&mut bytes)?;
    let text = listing(rt.alloc(), bytes.as_slice())?;
    rt.print(text.as_str())?;
    Ok(())
}
