//! A journal that begins anew.

use super::answers::sends_hover;
use super::steps::{finish, opened, take, tells_findings};
use ls_desk::{Counts, Desk, DeskFault, Event, Kept};
use ls_session::body_of;
use one_document::{change, hover};
use std::alloc::Global;
use std::test::Fail;

/// The whole reply to the hover with the id 2: 180 bytes.
const HOVERED: &str =
    r#"{"id":2,"jsonrpc":"2.0","result":{"contents":{"kind":"plaintext","value":"shortest length 1\nexample x"},"range":{"end":{"character":1,"line":0},"start":{"character":0,"line":0}}}}"#;

// Whether the oldest reply has this body.
fn says(desk: &Desk, alloc: Global, wanted: &str) -> Result<bool, DeskFault> {
    match desk.out_at(0) {
        Some(out) => Ok(body_of(alloc, out)?.as_slice() == wanted.as_bytes()),
        None => Ok(false),
    }
}

// A hover over the first rule is answered for version 1, by its example `x`, and the answer is sent.
fn tells_hover(desk: &mut Desk, alloc: Global) -> Result<bool, DeskFault> {
    let asked = hover(desk, alloc, 2)? == 2;
    let job = take(desk)?;
    let kept = finish(desk, alloc, job);
    let says = says(desk, alloc, HOVERED);
    Ok(asked && kept? == Kept::Reply && says? && sends_hover(desk, 1, 120))
}

fn is_second_half(journal: &[Event]) -> bool {
    matches!(
        journal,
        [
            Event::Asked { ticket: 2, .. },
            Event::Took { worker: 0 },
            Event::Finished {
                ticket: 2,
                failed: false
            },
            Event::Sent { ticket: 2 }
        ]
    )
}

// Four events fill the journal. The fifth, a request, makes a checkpoint.
#[test]
fn by_a_request(rt: HostRuntime) -> Result<(), Fail> {
    let mut desk = Desk::new(rt.alloc(), 4, 1_000);
    let most = desk.max_journal();
    let begun = opened(&mut desk, rt.alloc());
    let none = desk.checkpoints();
    let told = tells_hover(&mut desk, rt.alloc());
    let checkpoints = desk.checkpoints();
    let half = is_second_half(desk.journal());
    let counts = desk.counts();
    let open = desk.base().documents.as_slice().len();
    let waiting = desk.base().waiting.as_slice().len();
    drop(desk);
    assert_eq!(rt; HOVERED.len(), 180);
    assert!(rt; begun? && told? && half);
    assert!(rt; most == 4 && none == 0 && checkpoints == 1);
    assert!(rt; open == 1 && waiting == 0);
    let want = Counts {
        client: 2,
        took: 2,
        returned: 0,
        finished: 2,
        sent: 2,
    };
    assert!(rt; counts == want);
    Ok(())
}

// With room for one event each client's event makes a checkpoint but the first.
#[test]
fn by_each_event(rt: HostRuntime) -> Result<(), Fail> {
    let mut desk = Desk::new(rt.alloc(), 1, 1_000);
    let begun = opened(&mut desk, rt.alloc());
    let told = tells_hover(&mut desk, rt.alloc());
    let changed = change(&mut desk, rt.alloc(), "a = \"y\"");
    let findings = tells_findings(&mut desk, rt.alloc(), 3);
    let checkpoints = desk.checkpoints();
    let journal = desk.journal().len();
    drop(desk);
    assert!(rt; begun? && told? && findings?);
    assert!(rt; changed == Ok(Some(2)));
    assert!(rt; checkpoints == 2 && journal == 4);
    Ok(())
}
