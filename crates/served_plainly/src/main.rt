//! The server on one thread over standard input and output: each message is answered before the next one is read. The sessions of the gate
//! run on it, since their bytes are known to the last. No function here has a contract beyond safety.
#![tactic(auto)]

use ls_devices::{ReadFrom, WriteTo};
use ls_plain::serve_plain;
use ls_program::{Ending, keep_freed_blocks};
use std::process::ExitCode;

fn main(rt: HostRuntime) -> ExitCode {
    keep_freed_blocks(rt.alloc());
    let mut reader = ReadFrom::new(rt.stdin());
    let mut writer = WriteTo::new(rt.stdout());
    let ending = Ending::of(serve_plain(rt.alloc(), &mut reader, &mut writer));
    let (kind, detail) = ending.line();
    if !kind.is_empty() {
        // A line that can't be printed leaves the status to say how it ended.
        let _ = eprintln!(&rt; "{kind}{detail}");
    }
    ExitCode::from(ending.status())
}
