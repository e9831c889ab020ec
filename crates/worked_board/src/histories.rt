//! A short history, written out: what it says of the client and of replies, and that it is legal.
ghost use Rattle.worked_board.specs.Histories.{IsShort};

// Of a closed document "not open" is the cause that holds, and no other refusal may stand there.
fn a_short_history()
    ensures { IsShort }
{}

#[test]
fn is_legal_for_its_own_cause() {
    a_short_history();
}
