//! Worked bytes of the definitions, computed by the check. The functions do nothing.
ghost use Rattle.std.specs.Prelude.{◌≡◌, None, Some, codes, neg_ℤ, pos, []};
ghost use Rattle.serde_json.specs.Data.{null, array, no_items, number, unsigned, string, object, member, no_members};
ghost use Rattle.serde_json.specs.Written.{compact_text};
ghost use Rattle.ls_rpc.specs.Reply.{error_json, notice_json};
ghost use Rattle.ls_rpc.specs.Message.{message_of, request, notice, response, bad, invalid_request, parse_error};
ghost use Rattle.ls_rpc.specs.declared.message.Id.TheVariants.{Number, Text};

/// The bytes of the reply to a body that is no message.
pub fn bad_reply_bytes()
    ensures { compact_text (error_json None invalid_request (codes "invalid request"))
        ≡ codes "{\"error\":{\"code\":-32600,\"message\":\"invalid request\"},\"id\":null,\"jsonrpc\":\"2.0\"}" }
{}

/// The bytes of the notice that publishes no finding.
pub fn findings_bytes()
    ensures { compact_text (notice_json (codes "textDocument/publishDiagnostics")
        (object (member (codes "diagnostics") (array no_items)
        (member (codes "uri") (string (codes "file:///g"))
        (member (codes "version") (number (unsigned 1)) no_members)))))
        ≡ codes "{\"jsonrpc\":\"2.0\",\"method\":\"textDocument/publishDiagnostics\",\"params\":{\"diagnostics\":[],\"uri\":\"file:///g\",\"version\":1}}" }
{}

/// Which ids are ids: integers of 64 bits with a sign and texts, but no number with a point or an exponent, no `-0` and
/// no `null`. Of two members `id` the last counts, and a key may be written with escapes.
pub fn ids()
    ensures whole { message_of (codes "{\"id\":1,\"method\":\"m\"}") ≡ request (Number (pos 1)) (codes "m") null }
    ensures negative { message_of (codes "{\"id\":-5,\"method\":\"m\"}") ≡ request (Number (neg_ℤ (pos 5))) (codes "m") null }
    ensures point { message_of (codes "{\"id\":1.0,\"method\":\"m\"}") ≡ bad None invalid_request }
    ensures exponent { message_of (codes "{\"id\":1e3,\"method\":\"m\"}") ≡ bad None invalid_request }
    ensures minus_zero { message_of (codes "{\"id\":-0,\"method\":\"m\"}") ≡ bad None invalid_request }
    ensures above { message_of (codes "{\"id\":9223372036854775808,\"method\":\"m\"}") ≡ bad None invalid_request }
    ensures null_id { message_of (codes "{\"id\":null,\"method\":\"m\"}") ≡ bad None invalid_request }
    ensures twice { message_of (codes "{\"id\":1,\"method\":\"m\",\"id\":\"a\"}") ≡ request (Text (codes "a")) (codes "m") null }
    ensures escaped { message_of (codes "{\"\\u0069d\":1,\"method\":\"m\"}") ≡ request (Number (pos 1)) (codes "m") null }
{}

/// Which bodies are something else than a request: a notice, a response, and those that are bad.
pub fn others()
    ensures no_id { message_of (codes "{\"method\":\"m\"}") ≡ notice (codes "m") null }
    ensures reply { message_of (codes "{\"id\":2,\"result\":null}") ≡ response }
    ensures no_method { message_of (codes "{\"id\":2}") ≡ bad (Some (Number (pos 2))) invalid_request }
    ensures number_method { message_of (codes "{\"id\":2,\"method\":5}") ≡ bad (Some (Number (pos 2))) invalid_request }
    ensures batch { message_of (codes "[]") ≡ bad None invalid_request }
    ensures empty { message_of [] ≡ bad None parse_error }
{}
