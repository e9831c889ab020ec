//! What faults say of themselves: what is said of their findings and of their refusals.

use abnf_syntax::SyntaxFault;
use ls_answers::RenameFault;
use ls_text::Place;
use std::alloc::Global;
use std::test::Fail;

/// Whether a fault says this of itself, as its finding does.
fn fault_says(alloc: Global, fault: SyntaxFault, want: &str) -> Result<bool, Fail> {
    let said = format!(in alloc; "{fault}")?;
    Ok(said.as_str() == want)
}

#[test]
fn of_syntax(rt: HostRuntime) -> Result<(), Fail> {
    let alloc = rt.alloc();
    let at = Place {
        line: 0,
        start: 0,
        end: 1,
    };
    assert!(rt; fault_says(alloc, SyntaxFault::NoName(at), "rule name expected")?);
    assert!(rt;
        fault_says(
            alloc,
            SyntaxFault::NoDefinedAs(at),
            "\"=\" or \"=/\" expected"
        )?
    );
    assert!(rt; fault_says(alloc, SyntaxFault::BadToken(at), "bad character")?);
    assert!(rt; fault_says(alloc, SyntaxFault::ElementExpected(at), "element expected")?);
    assert!(rt; fault_says(alloc, SyntaxFault::BlankExpected(at), "blank expected")?);
    assert!(rt; fault_says(alloc, SyntaxFault::Unclosed(at), "bracket not closed")?);
    assert!(rt; fault_says(alloc, SyntaxFault::NumberTooLarge(at), "number too large")?);
    assert!(rt; fault_says(alloc, SyntaxFault::TooDeep(at), "brackets nested too deep")?);
    Ok(())
}

fn refusal_says(alloc: Global, fault: RenameFault, want: &str) -> Result<bool, Fail> {
    let said = format!(in alloc; "{fault}")?;
    Ok(said.as_str() == want)
}

#[test]
fn of_renames(rt: HostRuntime) -> Result<(), Fail> {
    assert!(rt; refusal_says(rt.alloc(), RenameFault::NotAName, "not a rule name")?);
    assert!(rt;
        refusal_says(
            rt.alloc(),
            RenameFault::NothingToRename,
            "nothing to rename"
        )?
    );
    assert!(rt; refusal_says(rt.alloc(), RenameFault::NameInUse, "name in use")?);
    Ok(())
}
