//! The session of a client: what a message means at its stage.
ghost use Rattle.std.specs.Prelude.{◌≡◌, IfOk, OnErr, Ok, false};
ghost use Rattle.std.specs.Option.{option_copied};
ghost use Rattle.serde_json.specs.View.{view};
ghost use Rattle.serde_json.specs.Written.{has_float};
ghost use Rattle.ls_rpc.specs.Message.{message_of, message_view};
ghost use Rattle.ls_rpc.specs.Reply.{result_json};
ghost use Rattle.ls_session.specs.Session.{turn_of, request_turn, running_turn, first_turn, notice_turn, exit_turn, stage_event, late_event, bad_turn, turn_of_request, refused, said};
ghost use Rattle.ls_session.specs.declared.session.Stage.TheVariants.{BeforeInitialize, Ended};

use crate::initialize::initialize_value;
use crate::kind::{NoticeKind, RequestKind, notice_kind, request_kind};
use crate::params;
use crate::turn::{Status, Turn};
use ls_answers::Ask;
use ls_bodies::Refusal;
use ls_lists::{List, Text};
use ls_machine::ClientEvent;
use ls_rpc::{Id, Message, read_message, result_text};
use ls_text::Units;
use serde_json::Value;
use std::alloc::{AllocError as Memory, Global};
use std::marker::Model;

/// What `initialize` has settled.
#[derive(Clone, Copy, Debug, PartialEq, Eq)]
pub struct Agreed {
    /// Whether the client takes edits of a workspace as `documentChanges` (LSP 3.17, "WorkspaceEdit").
    pub links: bool,
    /// What positions count (LSP 3.17, "PositionEncodingKind").
    pub units: Units,
    /// Whether the client opens drafts too, of which the grammars in them are read (LSP 3.17, "Initialize Request":
    /// `initializationOptions`, whose `drafts` is this server's own).
    pub drafts: bool,
}

/// Where a session stands (LSP 3.17, "Server lifecycle").
#[derive(Clone, Copy, Debug, PartialEq, Eq)]
pub enum Stage {
    /// `initialize` hasn't come.
    BeforeInitialize,
    /// Between `initialize` and `shutdown`.
    Running(Agreed),
    /// Between `shutdown` and `exit`.
    ShutDown,
    /// After `exit`.
    Ended,
}

/// A client's session, from before `initialize` to after `exit`. Contracts see its stage.
#[derive(Drop)]
pub struct Session {
    alloc: Global,
    stage: Stage,
}

impl Model for Session {
    ghost use Rattle.ls_session.specs.declared.session.Stage.{Stage};

    ghost Value = { Stage };

    ghost view = { λ session. session.stage };
}

impl Session {
    /// A session to which no message has come: it stands before `initialize`. Takes no memory.
    pub fn new(alloc: Global) -> Session
        ensures { result ≡ BeforeInitialize }
    {
        Session {
            alloc,
            stage: Stage::BeforeInitialize,
        }
    }

    /// The turn on the next message, by its body, and the session goes on to the stage after it. Every body has one: what is no message is
    /// refused to the client. All of the body is read, but after `exit`, where nothing comes of any.
    ///
    /// # Errors
    ///
    /// Where an allocation is refused. The session is as before then. After `exit` no body is read, and none is asked for.
    #[tactic(auto, using(crate::proofs::Ended::turn_ended))]
    pub fn event(&mut self, body: &[u8]) -> Result<Turn, Memory>
        ensures turn { IfOk result
            (λ turn. (turn, self.new) ≡ turn_of self.old (message_of body.now)) }
        ensures ended { self.old ≡ Ended → result ≡ Ok Turn.Nothing }
        ensures err { OnErr result (self.new ≡ self.old) }
    {
        if let Stage::Ended = self.stage {
            return Ok(Turn::Nothing);
        }
        let message = read_message(self.alloc, body)?;
        let (turn, stage) = turn(self.alloc, self.stage, message)?;
        self.stage = stage;
        Ok(turn)
    }
}

#[tactic(auto, unfolding(crate::specs::Session::turn_of))]
fn turn(alloc: Global, stage: Stage, message: Message) -> Result<(Turn, Stage), Memory>
    ensures { IfOk result (λ turn. turn ≡ turn_of stage (message_view message)) }
{
    match message {
        Message::Request { id, method, params } => {
            request_turn(alloc, stage, id, request_kind(method.as_str()), params)
        }
        Message::Notice { method, params } => {
            notice_turn(alloc, stage, notice_kind(method.as_str()), params)
        }
        Message::Response => Ok((Turn::Nothing, stage)),
        Message::Bad { id, code } => Ok((bad_turn(alloc, stage, id, code)?, stage)),
    }
}

fn request_turn(
    alloc: Global,
    stage: Stage,
    id: Id,
    kind: RequestKind,
    params: Value,
) -> Result<(Turn, Stage), Memory>
    ensures { IfOk result (λ turn. turn ≡ request_turn stage id kind (view params)) }
{
    match stage {
        Stage::BeforeInitialize => first_turn(alloc, id, kind, params),
        Stage::Running(agreed) => running_turn(alloc, agreed, id, kind, params),
        Stage::ShutDown => Ok((refused(alloc, Some(&id), Refusal::InvalidRequest)?, stage)),
        Stage::Ended => Ok((Turn::Nothing, stage)),
    }
}

fn first_turn(
    alloc: Global,
    id: Id,
    kind: RequestKind,
    params: Value,
) -> Result<(Turn, Stage), Memory>
    ensures { IfOk result (λ turn. turn ≡ first_turn id kind (view params)) }
{
    match kind {
        RequestKind::Initialize => {
            let agreed = params::agreed(&params);
            let reply = replied(alloc, &id, initialize_value(alloc, agreed.units)?)?;
            Ok((reply, Stage::Running(agreed)))
        }
        _ => {
            let reply = refused(alloc, Some(&id), Refusal::NotInitialized)?;
            Ok((reply, Stage::BeforeInitialize))
        }
    }
}

fn running_turn(
    alloc: Global,
    agreed: Agreed,
    id: Id,
    kind: RequestKind,
    params: Value,
) -> Result<(Turn, Stage), Memory>
    ensures { IfOk result (λ turn. turn ≡ running_turn agreed id kind (view params)) }
{
    let stage = Stage::Running(agreed);
    match kind {
        RequestKind::Initialize => {
            Ok((refused(alloc, Some(&id), Refusal::InvalidRequest)?, stage))
        }
        RequestKind::Shutdown => Ok((replied(alloc, &id, Value::Null)?, Stage::ShutDown)),
        RequestKind::Unknown => Ok((refused(alloc, Some(&id), Refusal::MethodNotFound)?, stage)),
        _ => {
            let question = params::question(alloc, kind, params)?;
            Ok((asked(alloc, id, agreed.links, question)?, stage))
        }
    }
}

fn asked(alloc: Global, id: Id, links: bool, question: Option<(Text, Ask)>) -> Result<Turn, Memory>
    ensures { IfOk result (λ turn. turn ≡ turn_of_request id links question) }
{
    match question {
        Some((uri, ask)) => Ok(Turn::Event(ClientEvent::Request(id, uri, ask, links))),
        None => refused(alloc, Some(&id), Refusal::InvalidParams),
    }
}

fn notice_turn(
    alloc: Global,
    stage: Stage,
    kind: NoticeKind,
    params: Value,
) -> Result<(Turn, Stage), Memory>
    ensures { IfOk result (λ turn. turn ≡ notice_turn stage kind (view params)) }
{
    match kind {
        NoticeKind::Exit => Ok(exit_turn(stage)),
        _ => match stage_event(alloc, stage, kind, params)? {
            Some(event) => Ok((Turn::Event(event), stage)),
            None => Ok((Turn::Nothing, stage)),
        },
    }
}

fn exit_turn(stage: Stage) -> (Turn, Stage)
    ensures { result ≡ exit_turn stage }
{
    match stage {
        Stage::BeforeInitialize | Stage::Running(_) => (Turn::Exit(Status::Unclean), Stage::Ended),
        Stage::ShutDown => (Turn::Exit(Status::Clean), Stage::Ended),
        Stage::Ended => (Turn::Nothing, Stage::Ended),
    }
}

fn stage_event(
    alloc: Global,
    stage: Stage,
    kind: NoticeKind,
    params: Value,
) -> Result<Option<ClientEvent>, Memory>
    ensures { IfOk result (λ event. event ≡ stage_event stage kind (view params)) }
{
    match stage {
        Stage::Running(agreed) => params::event(alloc, agreed, kind, params),
        Stage::ShutDown => late_event(alloc, kind, &params),
        Stage::BeforeInitialize | Stage::Ended => Ok(None),
    }
}

/// The event of a notice after `shutdown`: requests that came before it may wait, and can be cancelled.
fn late_event(
    alloc: Global,
    kind: NoticeKind,
    params: &Value,
) -> Result<Option<ClientEvent>, Memory>
    ensures { IfOk result (λ event. event ≡ late_event kind (view params.now)) }
{
    match kind {
        NoticeKind::CancelRequest => params::cancel(alloc, params),
        _ => Ok(None),
    }
}

fn bad_turn(alloc: Global, stage: Stage, id: Option<Id>, code: i32) -> Result<Turn, Memory>
    ensures { IfOk result (λ turn. turn ≡ bad_turn stage id code) }
{
    match stage {
        Stage::Ended => Ok(Turn::Nothing),
        _ => refused(alloc, id.as_ref(), Refusal::of_code(code)),
    }
}

/// A reply with an error.
fn refused(alloc: Global, id: Option<&Id>, refusal: Refusal) -> Result<Turn, Memory>
    ensures { IfOk result (λ turn. turn ≡ refused (option_copied id.entry) refusal) }
{
    let body = refusal.body(alloc, id)?;
    Ok(Turn::Event(ClientEvent::Say(List::from_vec(body))))
}

/// A reply with a result.
fn replied(alloc: Global, id: &Id, value: Value) -> Result<Turn, Memory>
    requires { has_float (view value) ≡ false }
    ensures { IfOk result (λ turn. turn ≡ said (result_json id.now (view value))) }
{
    let body = result_text(alloc, id, value)?;
    Ok(Turn::Event(ClientEvent::Say(List::from_vec(body))))
}
