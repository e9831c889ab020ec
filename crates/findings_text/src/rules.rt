//! What is printed of the rules of a text.

ghost use Rattle.std.specs.Prelude.{◌≡◌, ◌<◌, ℕ, All, IfOk, IfSome, length, map};
ghost use Rattle.abnf_cert.specs.Accepted.{IsAccepted};
ghost use Rattle.abnf_names.specs.Places.{named_at};
ghost use Rattle.findings_text.specs.Rules as spec;
ghost use Rattle.findings_text.specs.Sources.{located};
ghost use Rattle.findings_text.specs.Told as front;

use crate::rule_line::push_rule_line;
use crate::source::{Source, located};
use abnf_cert::Cert;
use abnf_least::{example, least};
use abnf_names::{Grammar, RuleNo, Spot};
use ls_lists::{List, Text};
use ls_text::{Encoding, Ruler, Snapshot};
use std::alloc::{AllocError as Memory, Global};

/// The first place that defines a rule, and the rule.
#[derive(Clone, Copy)]
pub(crate) struct Head<'t> {
    pub(crate) spot: Spot<'t>,
    rule: RuleNo,
}

/// The rule that a place defines.
fn defined_at<'t>(grammar: &Grammar<'t>, spot: &Spot<'t>) -> Option<RuleNo>
    ensures rule { result ≡ spec.defined_at grammar.now.names (named_at spot.now) }
    ensures within { IfSome result (λ r. r < length grammar.now.rules) }
{
    if spot.defines {
        grammar.rule_of(spot.name)
    } else {
        None
    }
}

/// The rule that a place defines, unless one before it does; from now on one does.
fn new_rule<'t>(grammar: &Grammar<'t>, told: &mut [bool], spot: &Spot<'t>) -> Option<RuleNo>
    requires { length told.old ≡ length grammar.now.rules }
    ensures rule { result ≡ spec.if_new told.old (spec.defined_at grammar.now.names (named_at spot.now)) }
    ensures told { told.new ≡ spec.also_told result told.old }
    ensures within { IfSome result (λ r. r < length grammar.now.rules) }
{
    let rule = defined_at(grammar, spot)?;
    if told[rule.get()] {
        return None;
    }
    told[rule.get()] = true;
    Some(rule)
}

/// The heads among the places of a text: of each rule that it defines the first place that does.
pub(crate) fn heads_of<'t>(alloc: Global, grammar: &Grammar<'t>) -> Result<List<Head<'t>>, Memory>
    ensures heads { IfOk result (λ heads. map spec.head_at heads ≡ spec.heads grammar.now.names grammar.now.places) }
    ensures within { IfOk result (λ heads. All (λ head. head.rule < length grammar.now.rules) heads) }
{
    let mut table = vec![in alloc; false; grammar.rule_count()]?;
    let told = table.as_mut_slice();
    let mut heads = List::new(alloc);
    for spot in grammar.spots() {
        if let Some(rule) = new_rule(grammar, told, spot) {
            heads.push(Head { spot: *spot, rule })?;
        }
    }
    Ok(heads)
}

/// The lines of the rules of these heads.
fn rule_lines<'t>(
    alloc: Global,
    file: &str,
    source: Source<'_>,
    grammar: &Grammar<'t>,
    cert: &Cert,
    heads: &[Head<'t>],
) -> Result<Text, Memory>
    requires accepted { IsAccepted grammar.now.rules cert.now }
    requires within { All (λ head. head.rule < length grammar.now.rules) heads.now }
    ensures { IfOk result (λ lines. spec.AreRuleLines (located source.entry grammar.now.text) file.now grammar.now (map spec.head_at heads.now) lines) }
{
    let text = grammar.source();
    let mut ruler = Ruler::new(text, Encoding::Utf32);
    let mut lines = String::new(alloc);
    for head in heads {
        let shown = example(alloc, grammar, cert, head.rule)?;
        let begin = ruler.range_of(&head.spot.place).start;
        let at = located(source, text, begin);
        push_rule_line(&mut lines, alloc, file, at, &head.spot, &shown)?;
    }
    Ok(Text::new(lines))
}

/// The lines of the rules of a grammar.
fn printed_by(
    alloc: Global,
    file: &str,
    source: Source<'_>,
    grammar: &Grammar,
) -> Result<Text, Memory>
    ensures { IfOk result (λ lines. spec.AreRuleLines (located source.entry grammar.now.text) file.now grammar.now (spec.heads grammar.now.names grammar.now.places) lines) }
{
    let cert = least(alloc, grammar)?;
    let heads = heads_of(alloc, grammar)?;
    rule_lines(alloc, file, source, grammar, &cert, heads.as_slice())
}

/// What is printed of the rules of a grammar's text from a file with this name: each rule that it defines in a line, at
/// the first place of the file that does, with what is known of its shortest strings.
///
/// A certificate is made for all rules. Then each rule that has an example takes time by the number of all parts.
///
/// # Errors
///
/// Where an allocation is refused.
pub fn print_rules_from(
    alloc: Global,
    file: &str,
    source: Source<'_>,
    text: &Snapshot,
) -> Result<Text, Memory>
    ensures { IfOk result (λ lines. spec.ArePrintedRulesFrom (located source.entry text.now) file.now text.now lines) }
{
    let grammar = Grammar::of(alloc, text)?;
    let lines = printed_by(alloc, file, source, &grammar);
    drop(grammar);
    lines
}

/// Of these heads those that stand in a grammar at the front of their text.
fn told_heads<'t>(heads: List<Head<'t>>, told: &Snapshot) -> List<Head<'t>>
    ensures heads { map spec.head_at result ≡ front.told_heads told.now (map spec.head_at heads.entry) }
    ensures within { (n : ℕ) → All (λ head. head.rule < n) heads.entry → All (λ head. head.rule < n) result }
{
    let lines = told.line_count() - 1;
    let mut heads = heads.into_vec();
    heads.retain(|head| head.spot.place.line < lines);
    List::from_vec(heads)
}

/// The lines of the rules of a file's grammar at the front of a text to which rules of others are joined.
fn told_rules(
    alloc: Global,
    file: &str,
    source: Source<'_>,
    grammar: &Grammar,
    told: &Snapshot,
) -> Result<Text, Memory>
    ensures { IfOk result (λ lines. spec.AreRuleLines (located source.entry grammar.now.text) file.now grammar.now
        (front.told_heads told.now (spec.heads grammar.now.names grammar.now.places)) lines) }
{
    let cert = least(alloc, grammar)?;
    let heads = told_heads(heads_of(alloc, grammar)?, told);
    rule_lines(alloc, file, source, grammar, &cert, heads.as_slice())
}

/// What is printed of the rules of a file's grammar at the front of a text to which rules of others are joined: each rule
/// whose first definition stands there in a line, by all of the text.
///
/// The front is as many lines of the text as `told`, the file's grammar, has line ends. Time goes as for
/// [`print_rules_from`].
///
/// # Errors
///
/// Where an allocation is refused.
pub fn print_told_rules(
    alloc: Global,
    file: &str,
    source: Source<'_>,
    told: &Snapshot,
    text: &Snapshot,
) -> Result<Text, Memory>
    ensures { IfOk result (λ lines. front.ArePrintedRulesIn told.now (located source.entry text.now) file.now text.now lines) }
{
    let grammar = Grammar::of(alloc, text)?;
    let lines = told_rules(alloc, file, source, &grammar, told);
    drop(grammar);
    lines
}

/// What is printed of the rules of a text in a file with this name: each rule that it defines in a line, with what is
/// known of its shortest strings by a certificate that is found for it. Lines and columns count from 1, and columns count
/// characters. Time goes as for [`print_rules_from`].
///
/// # Errors
///
/// Where an allocation is refused.
pub fn print_rules(alloc: Global, file: &str, text: &Snapshot) -> Result<Text, Memory>
    ensures { IfOk result (λ lines. spec.ArePrintedRules file.now text.now lines) }
{
    print_rules_from(alloc, file, Source::File, text)
}
