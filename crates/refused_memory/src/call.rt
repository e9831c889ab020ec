//! The calls of a desk, with plain arguments. All are about one document.

use crate::worker::Worker;
use ls_desk::{Desk, DeskFault, Kept, Out};
use ls_lists::List;
use ls_rpc::Id;
use one_document::{change, close, hover, open, rename, symbols};
use std::alloc::Global;

/// A call, with the text of the document or the id of the request.
#[derive(Clone, Copy)]
pub enum Call {
    Open(&'static str),
    Change(&'static str),
    Close,
    Hover(i64),
    Rename(i64),
    Symbols(i64),
    Cancel(i64),
    Say,
    Take,
    GiveBack,
    Finish,
    NextOut,
}

/// What a call answers.
#[derive(Clone, Copy, Debug)]
pub enum Answer {
    /// A version or a ticket.
    Number(u64),
    Done,
    Found(bool),
    Held(Kept),
    Said,
    Replied(u64),
    Failed(i32),
    Findings(u64),
    Nothing,
    Refused(DeskFault),
}

// What the oldest reply is.
fn first(desk: &Desk) -> Answer {
    match desk.out_at(0) {
        Some(Out::Said(_)) => Answer::Said,
        Some(Out::Replied { version, .. }) => Answer::Replied(*version),
        Some(Out::Failed { code, .. }) => Answer::Failed(*code),
        Some(Out::Findings { version, .. }) => Answer::Findings(*version),
        None => Answer::Nothing,
    }
}

fn sent(desk: &mut Desk) -> Answer {
    let first = first(desk);
    let out = desk.next_out();
    let is_sent = out.is_some();
    drop(out);
    if is_sent { first } else { Answer::Nothing }
}

impl Call {
    /// Makes the call.
    pub fn made(&self, desk: &mut Desk, worker: &mut Worker, alloc: Global) -> Answer {
        match self.tried(desk, worker, alloc) {
            Ok(answer) => answer,
            Err(fault) => Answer::Refused(fault),
        }
    }

    fn tried(
        &self,
        desk: &mut Desk,
        worker: &mut Worker,
        alloc: Global,
    ) -> Result<Answer, DeskFault> {
        let answer = match self {
            Call::Open(text) => Answer::Number(open(desk, alloc, text)?),
            Call::Change(text) => match change(desk, alloc, text)? {
                Some(version) => Answer::Number(version),
                None => Answer::Nothing,
            },
            Call::Close => {
                close(desk, alloc)?;
                Answer::Done
            }
            Call::Hover(id) => Answer::Number(hover(desk, alloc, *id)?),
            Call::Rename(id) => Answer::Number(rename(desk, alloc, *id)?),
            Call::Symbols(id) => Answer::Number(symbols(desk, alloc, *id)?),
            Call::Cancel(id) => Answer::Found(desk.cancel(&Id::Number(*id))?),
            Call::Say => {
                desk.say(List::from_vec(Vec::from_slice(alloc, b"{}")?))?;
                Answer::Done
            }
            Call::Take => Answer::Number(worker.take(desk)?),
            Call::GiveBack => {
                worker.give_back(desk)?;
                Answer::Done
            }
            Call::Finish => Answer::Held(worker.finish(desk, alloc)?),
            Call::NextOut => sent(desk),
        };
        Ok(answer)
    }

    /// Its name.
    pub fn name(&self) -> &'static str {
        match self {
            Call::Open(_) => "did_open",
            Call::Change(_) => "did_change",
            Call::Close => "did_close",
            Call::Hover(_) | Call::Rename(_) | Call::Symbols(_) => "request",
            Call::Cancel(_) => "cancel",
            Call::Say => "say",
            Call::Take => "take",
            Call::GiveBack => "give_back",
            Call::Finish => "finish",
            Call::NextOut => "next_out",
        }
    }
}
