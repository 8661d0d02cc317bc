// Lists a run file: its bytes come from standard input, and the listing goes to standard output.
#![tactic(auto)]

use anyhow::anyhow;
use listings::list_file;
use std::io::{Read, Write};

// One byte more than the longest run file, so that a longer input is seen to be too long without being read whole.
const MOST_BYTES: u64 = 65_537;

fn main(rt: HostRuntime) -> anyhow::Result<()> {
    let mut file = Vec::new(rt.alloc());
    rt.stdin().take(MOST_BYTES).read_to_end(&mut file)?;
    let text = list_file(rt.alloc(), file.as_slice()).map_err(|_| anyhow!("out of memory"))?;
    rt.stdout().write_all(text.as_bytes())?;
    Ok(())
}
