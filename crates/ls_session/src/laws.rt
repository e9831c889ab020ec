//! What the definitions say of requests that were given up, computed by the check. The function does nothing.
ghost use Rattle.std.specs.Prelude.{◌≡◌, Some, codes};
ghost use Rattle.serde_json.specs.Written.{compact_text};
ghost use Rattle.ls_rpc.specs.Reply.{error_json};
ghost use Rattle.ls_rpc.specs.declared.message.Id.{Id};
ghost use Rattle.ls_machine.specs.Machine.{content_modified, internal_error, request_cancelled};
ghost use Rattle.ls_bodies.specs.Bodies.{failure_body};

/// Each code that the desk keeps for a request is said as it is, with its text: -32801, -32800 and -32603.
#[tactic(auto, unfolding(ls_bodies::specs::Bodies::failure_body))]
pub fn failures_have_their_code()
    ensures modified { (id : Id) → failure_body id content_modified
        ≡ compact_text (error_json (Some id) content_modified (codes "content modified")) }
    ensures cancelled { (id : Id) → failure_body id request_cancelled
        ≡ compact_text (error_json (Some id) request_cancelled (codes "request cancelled")) }
    ensures internal { (id : Id) → failure_body id internal_error
        ≡ compact_text (error_json (Some id) internal_error (codes "internal error")) }
{}
