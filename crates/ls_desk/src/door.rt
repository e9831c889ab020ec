//! The door for a client's event, whichever it is.
ghost use Rattle.std.specs.Prelude.{◌≡◌, ◌≢◌, IfOk, IfErr, IfSome, OnOk, false};
ghost use Rattle.std.specs.Str.{chars, encode_utf8_all};
ghost use Rattle.ls_machine.specs.Client.{IsAllowed, opens_too_large};
ghost use Rattle.ls_desk.specs.Door.{Admits, IsTextOf, client_fault};
ghost use Rattle.ls_desk.specs.Faults.{Refuses};

use crate::desk::Desk;
use ls_answers::Ask;
use ls_lists::{List, Text};
use ls_machine::{ClientAnswer, ClientEvent, DeskFault, SharedSnapshot};
use ls_rpc::Id;
use ls_text::{Edit, Encoding};

/// A text is the UTF-8 of its characters.
fn is_spelled(text: &Text)
    ensures { encode_utf8_all (chars text.now) ≡ text.now }
{
    let _ = text.as_str();
}

impl Desk {
    /// Opens a document, by its text where that is made already.
    fn open(
        &mut self,
        uri: Text,
        label: i64,
        text: Text,
        encoding: Encoding,
        made: Option<SharedSnapshot>,
    ) -> Result<ClientAnswer, DeskFault>
        requires { IfSome made (λ shared. IsTextOf (ClientEvent.DidOpen uri label text encoding) shared) }
        ensures ok { IfOk result (λ answer. Admits (ClientEvent.DidOpen uri label text encoding) answer self.old self.new) }
        ensures fits { OnOk result (opens_too_large (ClientEvent.DidOpen uri label text encoding) ≡ false) }
        ensures err { IfErr result (λ fault. Refuses (client_fault self.old (ClientEvent.DidOpen uri label text encoding)) self.old self.new fault) }
    {
        is_spelled(&text);
        let version = match made {
            Some(made) => self.open_shared(uri, label, made, encoding)?,
            None => self.did_open(uri, label, text, encoding)?,
        };
        Ok(ClientAnswer::Version(version))
    }

    /// Changes a document.
    fn change(
        &mut self,
        uri: Text,
        label: i64,
        edits: List<Edit>,
    ) -> Result<ClientAnswer, DeskFault>
        ensures ok { IfOk result (λ answer. Admits (ClientEvent.DidChange uri label edits) answer self.old self.new) }
        ensures err { IfErr result (λ fault. Refuses (client_fault self.old (ClientEvent.DidChange uri label edits)) self.old self.new fault) }
    {
        match self.did_change(uri, label, edits)? {
            Some(version) => Ok(ClientAnswer::Version(version)),
            None => Ok(ClientAnswer::Closed),
        }
    }

    /// A request waits.
    fn ask(
        &mut self,
        id: Id,
        uri: Text,
        question: Ask,
        links: bool,
    ) -> Result<ClientAnswer, DeskFault>
        requires { question ≢ Ask.Diagnose }
        ensures ok { IfOk result (λ answer. Admits (ClientEvent.Request id uri question links) answer self.old self.new) }
        ensures err { IfErr result (λ fault. Refuses (client_fault self.old (ClientEvent.Request id uri question links)) self.old self.new fault) }
    {
        let ticket = self.request(id, uri, question, links)?;
        Ok(ClientAnswer::Ticket(ticket))
    }

    /// Cancels a request.
    fn end_request(&mut self, id: &Id) -> Result<ClientAnswer, DeskFault>
        ensures ok { IfOk result (λ answer. Admits (ClientEvent.Cancel id.now) answer self.old self.new) }
        ensures err { IfErr result (λ fault. Refuses (client_fault self.old (ClientEvent.Cancel id.now)) self.old self.new fault) }
    {
        let found = self.cancel(id)?;
        Ok(ClientAnswer::Cancelled(found))
    }

    /// Does what an event of the client asks for, by the call that is its own, and gives the answer that stands in the entry. Where the
    /// text of an opening is made already, the desk keeps that one.
    ///
    /// # Errors
    ///
    /// Those of the event's own call, in the same order; nothing has changed then. A text of more than 4,194,304 bytes is never opened.
    pub fn enter(
        &mut self,
        event: ClientEvent,
        made: Option<SharedSnapshot>,
    ) -> Result<ClientAnswer, DeskFault>
        requires allowed { IsAllowed event }
        requires made { IfSome made (λ shared. IsTextOf event shared) }
        ensures ok { IfOk result (λ answer. Admits event answer self.old self.new) }
        ensures fits { OnOk result (opens_too_large event ≡ false) }
        ensures err { IfErr result (λ fault. Refuses (client_fault self.old event) self.old self.new fault) }
    {
        match event {
            ClientEvent::DidOpen(uri, label, text, encoding) => {
                self.open(uri, label, text, encoding, made)
            }
            ClientEvent::DidChange(uri, label, edits) => self.change(uri, label, edits),
            ClientEvent::DidClose(uri) => {
                self.did_close(uri)?;
                Ok(ClientAnswer::Closed)
            }
            ClientEvent::Request(id, uri, question, links) => self.ask(id, uri, question, links),
            ClientEvent::Cancel(id) => self.end_request(&id),
            ClientEvent::Say(body) => {
                self.say(body)?;
                Ok(ClientAnswer::Said)
            }
        }
    }
}
