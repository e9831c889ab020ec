//! Which of the texts that were diagnosed last is taken for the next one.

use super::found::{snapshot, told};
use incremental_findings::{Diagnosed, Recent};
use ls_text::Snapshot;
use std::alloc::Global;
use std::sync::Arc;
use std::test::Fail;

fn shared(alloc: Global, text: &str) -> Result<Arc<Snapshot>, Fail> {
    Ok(Arc::new(alloc, snapshot(alloc, text)?)?)
}

const DRAFT: &str = "a = b\n\nb = c\n\nc = a\n";

const CORE: &str = "x = \"x\"\ny = \"y\"\nz = x y\n";

const DRAFT_FOUND: &str = "0:0-0:1 2 unproductive rule a generates nothing\n\
    2:0-2:1 2 unproductive rule b generates nothing\n\
    4:0-4:1 2 unproductive rule c generates nothing\n";

/// Keeps a text, diagnosed.
fn keep_text(alloc: Global, recent: &mut Recent, text: &str) -> Result<(), Fail> {
    recent.keep(Diagnosed::of(alloc, shared(alloc, text)?)?);
    Ok(())
}

/// Whether a text that is near to this one was diagnosed, and just this was found in it. It is kept again.
fn is_near(alloc: Global, recent: &mut Recent, text: &str, want: &str) -> Result<bool, Fail> {
    let text = snapshot(alloc, text)?;
    let Some(near) = recent.take_near(&text) else {
        return Ok(false);
    };
    let found = told(alloc, near.findings());
    recent.keep(near);
    Ok(found?.as_str() == want)
}

#[test]
fn of_texts_in_turn(rt: HostRuntime) -> Result<(), Fail> {
    let alloc = rt.alloc();
    let mut recent = Recent::new();
    assert!(rt; !is_near(alloc, &mut recent, DRAFT, DRAFT_FOUND)?);
    keep_text(alloc, &mut recent, DRAFT)?;
    assert!(rt; !is_near(alloc, &mut recent, CORE, "")?);
    keep_text(alloc, &mut recent, CORE)?;
    assert!(rt;
        is_near(
            alloc,
            &mut recent,
            "a = b\n\nb = c ; d\n\nc = a\n",
            DRAFT_FOUND
        )?
    );
    assert!(rt; is_near(alloc, &mut recent, "x = \"x\"\ny = \"yy\"\nz = x y\n", "")?);
    assert!(rt;
        is_near(
            alloc,
            &mut recent,
            "\na = b\n\nb = c\n\nc = a\n",
            DRAFT_FOUND
        )?
    );
    keep_text(alloc, &mut recent, "p = %x20\nq = %x21\nr = p q\n")?;
    keep_text(alloc, &mut recent, "k = %x22\nl = %x23\nm = k l\n")?;
    assert!(rt; is_near(alloc, &mut recent, CORE, "")?);
    // A fifth one takes the place of that which was used longest ago.
    keep_text(alloc, &mut recent, "s = %x24\nt = %x25\nu = s t\n")?;
    assert!(rt; !is_near(alloc, &mut recent, DRAFT, DRAFT_FOUND)?);
    assert!(rt; is_near(alloc, &mut recent, CORE, "")?);
    Ok(())
}

#[test]
fn of_the_nearest_text(rt: HostRuntime) -> Result<(), Fail> {
    let alloc = rt.alloc();
    let mut recent = Recent::new();
    keep_text(alloc, &mut recent, "a = b\nb = c\nc = d\nd = a\n")?;
    keep_text(alloc, &mut recent, "a = b\nb = c\nc = d\nd = %x20\n")?;
    assert!(rt;
        is_near(
            alloc,
            &mut recent,
            "a = b\nb = c\nc = d ; e\nd = a\n",
            "0:0-0:1 2 unproductive rule a generates nothing\n\
             1:0-1:1 2 unproductive rule b generates nothing\n\
             2:0-2:1 2 unproductive rule c generates nothing\n\
             3:0-3:1 2 unproductive rule d generates nothing\n"
        )?
    );
    Ok(())
}

/// What others lend is given back.
#[test]
fn of_a_text_that_is_lent(rt: HostRuntime) -> Result<(), Fail> {
    let alloc = rt.alloc();
    let mut recent = Recent::new();
    keep_text(alloc, &mut recent, DRAFT)?;
    keep_text(alloc, &mut recent, CORE)?;
    let mut lent = recent.lend(&snapshot(alloc, DRAFT)?);
    assert!(rt; !is_near(alloc, &mut recent, DRAFT, DRAFT_FOUND)?);
    assert!(rt; is_near(alloc, &mut recent, CORE, "")?);
    assert!(rt; !is_near(alloc, &mut lent, CORE, "")?);
    assert!(rt; is_near(alloc, &mut lent, DRAFT, DRAFT_FOUND)?);
    recent.take_back(lent);
    assert!(rt; is_near(alloc, &mut recent, DRAFT, DRAFT_FOUND)?);
    recent.take_back(Recent::new());
    assert!(rt; is_near(alloc, &mut recent, CORE, "")?);
    Ok(())
}
