//! The grammar of a text.
//!
//! It is made anew for each question that needs one, since the numbers of rules and nodes depend on the whole text: a definition anywhere
//! changes the numbers of all rules behind it. It has one list of the places of all names, and none for each name.

ghost use Rattle.std.specs.Prelude.{◌≡◌, ◌<◌, ◌≤◌, ◌↔◌, suc, IfOk, IfSome, IsTrue, List, is_some, length, map, option_map};
ghost use Rattle.abnf_parts.specs.Part.{parts_of, root_number};
ghost use Rattle.abnf_parts.specs.Nodes.{AreNodes};
ghost use Rattle.abnf_parts.specs.Names.{folded_text, rule_number};
ghost use Rattle.abnf_parts.specs.Reach.{ReachesOpaque};
ghost use Rattle.abnf_names.specs.Places.{at_offset, is_defined, name_place, named_at, place_and_name, place_and_text, places_left, places_of_name};
ghost use Rattle.abnf_names.specs.Said.{Block, AreSaid};
ghost use Rattle.abnf_names.specs.Rules.{IsGrammar, defined};
ghost use Rattle.abnf_names.specs.Excerpts.{HasSections};

use crate::place::{PlacesOfName, Spot, found_at};
use crate::range::range_of;
use crate::rules::rules_said;
use crate::section::Section;
use crate::sections::sections_of;
use crate::text_names::{faults_of, name_places};
use abnf_parts::{Node, NodeNo, RuleNames, RuleNo};
use abnf_syntax::SyntaxFault;
use abnf_token::Folded;
use ls_lists::List;
use ls_text::{Place, Snapshot};
use std::alloc::{AllocError, Global};
use std::marker::Model;

/// The grammar of a text: its rules with the core rules that they need (RFC 5234, appendix B.1), the places of names in it, and
/// the faults of its blocks.
///
/// Rules are numbered from 0: those of the text in the order in which their names are first defined, then the core rules that are
/// needed, in RFC 5234's order. Names are read without case. Of the blocks of a name the first with `=` and all with `=/` count;
/// a faulty block counts as an alternative of which nothing is known. A name stands for the text's rule, else for the core rule;
/// inside a core rule names stand for core rules alone.
///
/// Nodes are numbered from 0 too: rule after rule, each node before its parts, parts from left to right. The root of a rule is an
/// `Alt`. Elsewhere a concatenation or a bracketed alternation of one part is that part, and `[e]` is a `Rep` of 0 to 1.
pub struct Grammar<'t> {
    source: &'t Snapshot,
    nodes: Vec<Node<'t>>,
    roots: Vec<NodeNo>,
    names: RuleNames<'t>,
    spots: List<Spot<'t>>,
    faults: List<(Place, SyntaxFault)>,
    opaque: Vec<bool>,
    sections: List<Section<'t>>,
}

// Not derived, so that what lets one go is proved without its fields.
impl Drop for Grammar<'_> {
    fn drop(self) {
        let Grammar {
            source: _,
            nodes: _,
            roots: _,
            names: _,
            spots: _,
            faults: _,
            opaque: _,
            sections: _,
        } = self;
    }
}

impl<'t> Model for Grammar<'t> {
    ghost use Rattle.abnf_names.specs.Rules as rules;
    ghost use Rattle.abnf_names.specs.own.GrammarCode.{grammar_code};

    ghost Value = { rules.Grammar };

    ghost coded = { grammar_code };

    ghost use Rattle.abnf_names.specs.own.Inside.{grammar_inside, IsGrammarInside};

    ghost view = { grammar_inside };

    ghost invariant = { IsGrammarInside };
}

impl<'t> Grammar<'t> {
    /// The grammar of a text: its blocks are read, each as a rule or with its fault, and of these the rules by name are
    /// made, the core rules that they need, a tree for each rule as numbered nodes, and the places of names. Which rules
    /// lead to prose or to a faulty block is found too, so the calls below only look it up.
    ///
    /// Time and memory go by the length of the text, where the hashes of its names spread. The seed of their table is
    /// made of all names that the text defines.
    ///
    /// # Errors
    ///
    /// Where an allocation is refused.
    pub fn of(alloc: Global, snapshot: &'t Snapshot) -> Result<Grammar<'t>, AllocError>
        ensures text { IfOk result (λ g. g.text ≡ snapshot.entry.now) }
        ensures grammar { IfOk result IsGrammar }
    {
        let sections = sections_of(alloc, snapshot)?;
        let faults = faults_of(alloc, sections.as_slice())?;
        let places = name_places(alloc, sections.as_slice())?;
        let rules = rules_said(alloc, sections.as_slice(), &places)?;
        Ok(Grammar {
            source: snapshot,
            nodes: rules.nodes,
            roots: rules.roots,
            names: rules.names,
            spots: places.spots,
            faults,
            opaque: rules.opaque,
            sections,
        })
    }

    /// The parts of the rules, by number: the subtrees of all rules, each before its own parts.
    pub fn nodes(&self) -> &[Node<'t>]
        ensures { AreNodes self.now.rules result.now }
    {
        self.nodes.as_slice()
    }

    /// The number of a rule's root. The rule must be one of this grammar.
    pub fn root_of(&self, rule: RuleNo) -> NodeNo
        requires { rule < length self.now.rules }
        ensures { result ≡ root_number self.now.rules rule }
    {
        self.roots[rule.get()]
    }

    /// The numbers of a rule's parts: that of its root, and that behind its last part. The rule must be one of this
    /// grammar.
    pub fn range_of(&self, rule: RuleNo) -> (usize, usize)
        requires { rule < length self.now.rules }
        ensures start { result.0 ≡ root_number self.now.rules rule }
        ensures end { result.1 ≡ root_number self.now.rules (suc rule) }
        ensures order { result.0 ≤ result.1 }
        ensures within { result.1 ≤ length (parts_of self.now.rules) }
    {
        range_of(self.nodes.as_slice(), self.roots.as_slice(), rule.get())
    }

    /// How many rules there are.
    pub fn rule_count(&self) -> usize
        ensures { result ≡ length self.now.rules }
    {
        self.roots.len()
    }

    /// The rule that a name stands for in the text: the text's rule, else the core rule if one is needed; `None` where it
    /// stands for nothing. Names are found by their hashes.
    pub fn rule_of(&self, name: Folded<'t>) -> Option<RuleNo>
        ensures rule { result ≡ rule_number self.now.names (folded_text name.entry) }
        ensures within { IfSome result (λ r. r < length self.now.rules) }
    {
        self.names.rule_of(name)
    }

    /// The rule of [`rule_of`](Grammar::rule_of), or `None`, without a look for it where the guess is right that the
    /// text's rule with this number has the name.
    pub fn rule_guessed(&self, name: Folded<'t>, guess: usize) -> Option<RuleNo>
        ensures rule { result ≡ rule_number self.now.names (folded_text name.entry) }
        ensures within { IfSome result (λ r. r < length self.now.rules) }
    {
        self.names.rule_guessed(name, guess)
    }

    /// The text's own rule of a name. `None` exactly where no place of the text defines the name, which then stands for a
    /// core rule or for nothing.
    pub fn own_rule_of(&self, name: Folded<'t>) -> Option<RuleNo>
        ensures rule { (blocks : List Block) → AreSaid self.now.text blocks → result ≡ rule_number (defined blocks) (folded_text name.entry) }
        ensures within { IfSome result (λ r. r < length self.now.rules) }
        ensures defined { is_some result ≡ is_defined self.now.places (folded_text name.entry) }
    {
        match self.names.own().index_of(name) {
            Some(rule) => Some(RuleNo::new(rule)),
            None => None,
        }
    }

    /// The name at an offset, which counts characters of the text, and its place. That is the place which holds the
    /// character behind the offset, else the one that ends there. There is none in a comment, a quoted string or prose,
    /// and a name that follows a bad token or a number at once has none. An offset past the text's end is taken for the
    /// end. All places may be looked at.
    pub fn name_at(&self, offset: usize) -> Option<(Place, Folded<'t>)>
        ensures { option_map place_and_name result ≡ option_map place_and_text (at_offset self.now.text self.now.places offset) }
    {
        let at = self.source.place_at(offset);
        match found_at(self.spots.as_slice(), at) {
            Some(spot) => Some((spot.place, spot.name)),
            None => None,
        }
    }

    /// The places of all names, in the order of the text.
    pub fn spots(&self) -> &[Spot<'t>]
        ensures { map named_at result.now ≡ self.now.places }
    {
        self.spots.as_slice()
    }

    /// The places of a name, in the order of the text. All places are looked through for them.
    pub fn places<'s>(&'s self, name: Folded<'s>) -> PlacesOfName<'s, 't>
        ensures { places_left result ≡ map name_place (places_of_name (folded_text name.entry) self.now.places) }
    {
        PlacesOfName::among(self.spots.as_slice(), name)
    }

    /// The faults of the blocks, each with its place, in the order of the text.
    pub fn faults(&self) -> &[(Place, SyntaxFault)]
        ensures { result.now ≡ self.now.faults }
    {
        self.faults.as_slice()
    }

    /// Whether a chain of uses leads from a rule to prose or to a faulty block, so that not all of what it generates is known. The
    /// rule must be one of this grammar.
    pub fn reaches_opaque(&self, rule: RuleNo) -> bool
        requires { rule < length self.now.rules }
        ensures { IsTrue result ↔ ReachesOpaque self.now.rules rule }
    {
        self.opaque[rule.get()]
    }

    /// The blocks of the text in its order, each with its fault if it says no rule.
    pub fn sections(&self) -> &[Section<'t>]
        ensures { HasSections self.now result.now }
    {
        self.sections.as_slice()
    }

    /// The text that the grammar was made of. What is known of a grammar is that of its text.
    pub fn source(&self) -> &'t Snapshot
        ensures text { result.now ≡ self.now.text }
        ensures grammar { IsGrammar self.now }
    {
        self.source
    }
}
