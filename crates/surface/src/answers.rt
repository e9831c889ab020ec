//! `ls_answers`: questions, answers and jobs.
ghost use Rattle.std.specs.Prelude.{◌<◌, length, IfSome};
ghost use Rattle.abnf_cert.specs.Accepted.{IsAccepted};

use abnf_cert::Cert;
use abnf_least::Shortest;
use abnf_lint::Code;
use abnf_names::{Grammar, RuleNo};
use ls_answers::{Answer, Ask, Diagnostic, Done, HoverText, Insertion, Job, RenameFault, Symbol};
use ls_lists::{List, Text};
use ls_text::{Encoding, Position, Range, Snapshot};
use std::alloc::{AllocError as Memory, Global};
use std::sync::Arc;

pub fn ask_hover(at: Position) -> Ask {
    Ask::Hover(at)
}

pub fn ask_definition(at: Position) -> Ask {
    Ask::Definition(at)
}

pub fn ask_references(at: Position, declarations: bool) -> Ask {
    Ask::References(at, declarations)
}

pub fn ask_symbols() -> Ask {
    Ask::Symbols
}

pub fn ask_rename(at: Position, name: Text) -> Ask {
    Ask::Rename(at, name)
}

pub fn ask_action(range: Range) -> Ask {
    Ask::Action(range)
}

pub fn ask_tokens() -> Ask {
    Ask::Tokens
}

pub fn ask_diagnose() -> Ask {
    Ask::Diagnose
}

pub fn ask_kind(ask: &Ask) -> u8 {
    match ask {
        Ask::Hover(_) => 0,
        Ask::Definition(_) => 1,
        Ask::References(_, _) => 2,
        Ask::Symbols => 3,
        Ask::Rename(_, _) => 4,
        Ask::Action(_) => 5,
        Ask::Tokens => 6,
        Ask::Diagnose => 7,
    }
}

pub fn ask_copy(ask: &Ask) -> Result<Ask, Memory> {
    ask.copy()
}

pub fn job(ticket: u64, snapshot: Arc<Snapshot>, encoding: Encoding, ask: Ask) -> Job {
    Job {
        ticket,
        snapshot,
        encoding,
        ask,
    }
}

pub fn run(alloc: Global, job: Job) -> Done {
    ls_answers::run(alloc, job)
}

pub fn ticket(done: &Done) -> u64 {
    done.ticket()
}

pub fn snapshot(done: &Done) -> &Snapshot {
    done.snapshot()
}

pub fn encoding(done: &Done) -> Encoding {
    done.encoding()
}

pub fn ask(done: &Done) -> &Ask {
    done.ask()
}

pub fn answer(done: &Done) -> Result<&Answer, Memory> {
    done.answer()
}

pub fn answer_hover(range: Range, text: Text, example: Option<(Shortest, Cert)>) -> Answer {
    Answer::Hover(Some(HoverText {
        range,
        text,
        example,
    }))
}

pub fn answer_places(ranges: List<Range>) -> Answer {
    Answer::Places(ranges)
}

pub fn answer_symbols(symbols: List<Symbol>) -> Answer {
    Answer::Symbols(symbols)
}

pub fn symbol(name: Text, range: Range, name_range: Range) -> Symbol {
    Symbol {
        name,
        range,
        name_range,
    }
}

pub fn answer_edits(ranges: List<Range>, name: Text) -> Answer {
    Answer::Edits(ranges, name)
}

pub fn answer_refused(fault: RenameFault) -> Answer {
    Answer::Refused(fault)
}

pub fn answer_insert(position: Position, text: Text, cert: Cert) -> Answer {
    Answer::Insert(Some(Insertion {
        position,
        text,
        cert,
    }))
}

pub fn answer_numbers(numbers: List<u32>) -> Answer {
    Answer::Numbers(numbers)
}

pub fn answer_findings(found: List<Diagnostic>) -> Answer {
    Answer::Findings(found)
}

pub fn diagnostic(range: Range, code: Code, message: Text) -> Diagnostic {
    Diagnostic {
        range,
        code,
        message,
    }
}

pub fn answer_kind(answer: &Answer) -> u8 {
    match answer {
        Answer::Hover(_) => 0,
        Answer::Places(_) => 1,
        Answer::Symbols(_) => 2,
        Answer::Edits(_, _) => 3,
        Answer::Refused(_) => 4,
        Answer::Insert(_) => 5,
        Answer::Numbers(_) => 6,
        Answer::Findings(_) => 7,
        Answer::Draft(_) => 8,
    }
}

pub const RENAME_FAULTS: [RenameFault; 3] = [
    RenameFault::NotAName,
    RenameFault::NothingToRename,
    RenameFault::NameInUse,
];

pub fn rename_fault_number(fault: RenameFault) -> u8 {
    match fault {
        RenameFault::NotAName => 1,
        RenameFault::NothingToRename => 2,
        RenameFault::NameInUse => 3,
    }
}

pub fn hover_text(
    alloc: Global,
    grammar: &Grammar<'_>,
    cert: &Cert,
    rule: Option<RuleNo>,
) -> Result<String, Memory>
    requires accepted { IsAccepted grammar.now.rules cert.now }
    requires rule { IfSome rule (λ r. r < length grammar.now.rules) }
{
    ls_answers::hover_text(alloc, grammar, cert, rule)
}
