//! A law of tokens.

ghost use Rattle.std.specs.Prelude.{◌<◌, ◌^◌, ℕ, List, length};
ghost use Rattle.std.specs.Str.{encode_utf8_all, IsUtf8};
ghost use Rattle.abnf_token.specs.Classes.{Text};
ghost use Rattle.abnf_token.specs.Tokens.{TokensOf};
ghost use Rattle.abnf_token.specs.declared.token.Token.{Token};

/// Each line of fewer than 2^64 bytes has a list of tokens, whatever its characters and its number; and no longer line has one,
/// since a token ends below 2^64.
pub fn lines_have_tokens()
    ensures some { (line : ℕ) (chars : List ℕ) → length (encode_utf8_all chars) < 2 ^ 64
        → (ts : List Token) × TokensOf line 0 (encode_utf8_all chars) ts }
    ensures utf8 { (line : ℕ) (text : Text) → IsUtf8 text → length text < 2 ^ 64 → (ts : List Token) × TokensOf line 0 text ts }
    ensures none_longer { (line : ℕ) (text : Text) (ts : List Token) → TokensOf line 0 text ts → length text < 2 ^ 64 }
{}
