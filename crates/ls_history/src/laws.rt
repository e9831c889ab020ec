//! Laws of histories.
ghost use Rattle.ls_history.specs.Laws.{BeginningsAgree, EndsStay, HistoriesAreJournals, HistoriesBegin, HistoriesCount, HistoriesGoOn, RepliesAreUnique};

/// A history is a run of the machine: its events are a legal journal from the start of a session, which leads to the same state and the
/// same counts, over any number of checkpoints.
pub fn histories_are_journals()
    ensures { HistoriesAreJournals }
{}

/// What a desk did has a history. There is one of a desk on which nothing has happened, and with an entry more of whatever the desk does
/// next.
pub fn desks_have_histories()
    ensures begin { HistoriesBegin }
    ensures more { HistoriesGoOn }
{}

/// A history says in one way what was heard and what was sent. At each place in it a client's event has one reply, if memory isn't refused;
/// as many events had an answer, and as many replies left, as the machine counts; and two beginnings of one history that have as many of a
/// kind have the same.
pub fn histories_tell_once()
    ensures replies { RepliesAreUnique }
    ensures counts { HistoriesCount }
    ensures beginnings { BeginningsAgree }
{}

/// A board that was asked to end has ended by all that comes later, and the end at once is final.
pub fn ends_stay()
    ensures { EndsStay }
{}
