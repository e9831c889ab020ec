//! The tokens of a draft's grammar, in the draft.

ghost use Rattle.std.specs.Prelude.{◌≡◌, IfOk};
ghost use Rattle.origins.specs.Origins.{characters};
ghost use Rattle.ls_answers.specs.InDrafts as spec;
ghost use Rattle.ls_answers.specs.SemanticTokens.{AreReported};

use crate::semantic_tokens::{SemanticToken, relative, reported};
use abnf_names::Grammar;
use draft_grammars::SourceMap;
use ls_lists::List;
use ls_text::{Encoding, Snapshot};
use std::alloc::{AllocError as Memory, Global};

fn outward_token(places: &SourceMap<'_>, token: SemanticToken) -> SemanticToken
    ensures { result ≡ spec.outward_token places.now token }
{
    SemanticToken {
        range: places.outward_range(token.range),
        kind: token.kind,
        modifiers: token.modifiers,
    }
}

/// Those of the tokens that stand in one line of the draft, there.
fn outward_tokens(
    alloc: Global,
    places: &SourceMap<'_>,
    tokens: &[SemanticToken],
) -> Result<List<SemanticToken>, Memory>
    ensures { IfOk result (λ carried. carried ≡ spec.outward_tokens places.now tokens.now) }
{
    let mut carried = List::new(alloc);
    for token in tokens {
        let token = outward_token(places, *token);
        if token.range.start.line == token.range.end.line {
            carried.push(token)?;
        }
    }
    Ok(carried)
}

/// The tokens of a text that are reported.
fn tokens_in(alloc: Global, text: &Snapshot) -> Result<List<SemanticToken>, Memory>
    ensures { IfOk result (λ tokens. AreReported Encoding.Utf32 text.now tokens) }
{
    let grammar = Grammar::of(alloc, text)?;
    let tokens = reported(alloc, &grammar, Encoding::Utf32);
    drop(grammar);
    tokens
}

/// Five numbers for each token of the draft's grammar that stands in one line of the draft.
pub(crate) fn draft_tokens(alloc: Global, places: &SourceMap<'_>) -> Result<List<u32>, Memory>
    ensures { IfOk result (λ numbers. spec.AreTokensInDraft places.now numbers) }
{
    let tokens = tokens_in(alloc, places.grammar().text())?;
    let carried = outward_tokens(alloc, places, tokens.as_slice())?;
    relative(alloc, carried.as_slice())
}
