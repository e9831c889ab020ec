//! How a server ends that is full, or whose run strayed: no run of the programs comes to either. Their other endings stand in
//! `tools/program_ends.py`, and what the commands print in `tools/command_rows.py`.

use ls_server::{Ending, ServeFault, Status};

/// Whether a run of the server that came to this has this status and this line.
fn serves(served: Result<Status, ServeFault>, status: u8, kind: &str) -> bool {
    let ending = Ending::of(served);
    let line = ending.line();
    let is_so = ending.status() == status && line.0 == kind && line.1.is_empty();
    drop(ending);
    is_so
}

#[test]
fn endings_of_the_server(rt: HostRuntime) {
    assert!(rt; serves(Ok(Status::Full), 3, "session full"));
    assert!(rt; serves(Err(ServeFault::Strayed), 4, "strayed"));
}
