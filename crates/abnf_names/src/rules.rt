//! The nodes of the rules.

ghost use Rattle.std.specs.Prelude.{◌≡◌, ◌≤◌, length, List, [], map, if◌then◌else◌, flat_map, Result, IfOk, OnOk};
ghost use Rattle.abnf_syntax.specs.declared.fault.SyntaxFault.{SyntaxFault};
ghost use Rattle.abnf_syntax.specs.declared.tree.Rule.{Rule};
ghost use Rattle.abnf_parts.specs.Part.{subparts, alt};
ghost use Rattle.abnf_parts.specs.Tree.{parts};
ghost use Rattle.abnf_parts.specs.Names.{all_names, rule_number};
ghost use Rattle.abnf_names.specs.Said as said;
ghost use Rattle.abnf_names.specs.Rules as rules;
ghost use Rattle.abnf_names.specs.Sections.{IsSaidBy, alternatives_known};
ghost use Rattle.abnf_names.specs.own.Passes as spec;
ghost use Rattle.abnf_parts.specs.CoreTable as table;
ghost use Rattle.abnf_parts.specs.Pushed.{AddsNodes, AddsTrees};

use crate::groups::Group;
use crate::reach::reaching;
use crate::section::{Listed, Section};
use crate::sections::rule_of;
use crate::text_names::{NamesOfText, own_groups, rule_names};
use abnf_parts::{Core, Node, NodeNo, RuleNames, fill, push_concatenations, push_needed};
use abnf_syntax::{MAX_NESTING, Rule, Spare};
use ls_lists::List;
use std::alloc::{AllocError, Global};

/// What the nodes of rules are made with: the names of all rules, by which references are numbered, and memory.
#[derive(Clone, Copy)]
struct Numbering<'n, 't> {
    alloc: Global,
    names: &'n RuleNames<'t>,
}

/// The alternatives of a rule, or the opaque one where none is known, whose numbers are added to `numbers`.
fn push_known<'t>(
    numbering: &Numbering<'_, 't>,
    rule: &Option<Rule<'t>>,
    nodes: &mut Vec<Node<'t>>,
    numbers: &mut List<NodeNo>,
) -> Result<(), AllocError>
    ensures alternatives { OnOk result (AddsTrees (alternatives_known (rule_number (all_names numbering.now.names.now)) rule.now) nodes.old.items nodes.new.items numbers.old numbers.new) }
    ensures kept { OnOk result (length nodes.old.items ≤ length nodes.new.items) }
{
    match rule {
        Some(rule) => push_concatenations(
            numbering.alloc,
            numbering.names,
            MAX_NESTING,
            rule.body.as_slice(),
            nodes,
            numbers,
        ),
        None => {
            numbers.push(NodeNo::new(nodes.len()))?;
            nodes.push(Node::Opaque)?;
            Ok(())
        }
    }
}

/// The alternatives that a section's block says, whose numbers are added to `numbers`.
fn push_alternatives<'t>(
    numbering: &Numbering<'_, 't>,
    spare: &mut Spare<'t>,
    section: &Section<'t>,
    nodes: &mut Vec<Node<'t>>,
    numbers: &mut List<NodeNo>,
) -> Result<(), AllocError>
    ensures alternatives { OnOk result ((tells : Result Rule SyntaxFault) → IsSaidBy section.now tells
        → AddsTrees (rules.alternatives_said (rule_number (all_names numbering.now.names.now)) tells) nodes.old.items nodes.new.items numbers.old numbers.new) }
    ensures kept { OnOk result (length nodes.old.items ≤ length nodes.new.items) }
{
    let rule = rule_of(numbering.alloc, spare, section)?;
    push_known(numbering, &rule, nodes, numbers)?;
    if let Some(rule) = rule {
        spare.keep(rule);
    }
    Ok(())
}

/// The same if the section counts.
fn push_if<'t>(
    numbering: &Numbering<'_, 't>,
    counts: bool,
    spare: &mut Spare<'t>,
    section: &Section<'t>,
    nodes: &mut Vec<Node<'t>>,
    numbers: &mut List<NodeNo>,
) -> Result<(), AllocError>
    ensures alternatives { OnOk result ((tells : Result Rule SyntaxFault) → IsSaidBy section.now tells
        → AddsTrees (if counts then rules.alternatives_said (rule_number (all_names numbering.now.names.now)) tells else []) nodes.old.items nodes.new.items numbers.old numbers.new) }
    ensures kept { OnOk result (length nodes.old.items ≤ length nodes.new.items) }
{
    if counts {
        push_alternatives(numbering, spare, section, nodes, numbers)
    } else {
        Ok(())
    }
}

/// Whether `=/` follows the name at the head of a section's block.
fn adds(section: &Section<'_>) -> bool
    ensures { result ≡ spec.is_addition section.now.block.items }
{
    match section.block.head() {
        Some(head) => head.adds,
        None => false,
    }
}

/// The alternatives that those of a name's sections say which count, whose numbers are added to `numbers`. The first one counts.
fn push_counted<'s, 't>(
    numbering: &Numbering<'_, 't>,
    spare: &mut Spare<'t>,
    sections: &Group<Listed<'s, 't>>,
    nodes: &mut Vec<Node<'t>>,
    numbers: &mut List<NodeNo>,
) -> Result<(), AllocError>
    ensures alternatives { OnOk result ((definitions : List spec.HeadSaid) → spec.AreTold sections.now definitions
        → AddsTrees (flat_map (spec.alternatives_of (rule_number (all_names numbering.now.names.now))) (spec.counted_among definitions)) nodes.old.items nodes.new.items numbers.old numbers.new) }
    ensures kept { OnOk result (length nodes.old.items ≤ length nodes.new.items) }
{
    let first = sections.first.section;
    push_alternatives(numbering, spare, first, nodes, numbers)?;
    let mut is_defined = !adds(first);
    for listed in sections.rest.as_slice() {
        let adds = adds(listed.section);
        push_if(
            numbering,
            adds | !is_defined,
            spare,
            listed.section,
            nodes,
            numbers,
        )?;
        is_defined = is_defined | !adds;
    }
    Ok(())
}

/// The rule whose name has these sections.
fn push_rule<'s, 't>(
    numbering: &Numbering<'_, 't>,
    spare: &mut Spare<'t>,
    sections: &Group<Listed<'s, 't>>,
    nodes: &mut Vec<Node<'t>>,
) -> Result<(), AllocError>
    ensures { OnOk result ((definitions : List spec.HeadSaid) → spec.AreTold sections.now definitions
        → AddsNodes (subparts (spec.tree_of (rule_number (all_names numbering.now.names.now)) definitions)) nodes.old.items nodes.new.items) }
{
    let at = nodes.len();
    let mut numbers = List::new(numbering.alloc);
    nodes.push(Node::Opaque)?;
    push_counted(numbering, spare, sections, nodes, &mut numbers)?;
    fill(nodes, at, Node::Alt(numbers));
    Ok(())
}

/// The rules of the text, by the sections of each, whose roots' numbers are added to `roots`.
fn push_own<'s, 't>(
    numbering: &Numbering<'_, 't>,
    spare: &mut Spare<'t>,
    own: &[Group<Listed<'s, 't>>],
    nodes: &mut Vec<Node<'t>>,
    roots: &mut List<NodeNo>,
) -> Result<(), AllocError>
    ensures { OnOk result ((definitions : List (List spec.HeadSaid)) → spec.AllTold own.now definitions
        → AddsTrees (map (spec.tree_of (rule_number (all_names numbering.now.names.now))) definitions) nodes.old.items nodes.new.items roots.old roots.new) }
{
    for sections in own {
        roots.push(NodeNo::new(nodes.len()))?;
        push_rule(numbering, spare, sections, nodes)?;
    }
    Ok(())
}

/// All rules, those of the text first.
fn push_rules<'s, 't>(
    numbering: &Numbering<'_, 't>,
    spare: &mut Spare<'t>,
    own: &[Group<Listed<'s, 't>>],
    needed: &[Core],
    nodes: &mut Vec<Node<'t>>,
    roots: &mut List<NodeNo>,
) -> Result<(), AllocError>
    ensures { OnOk result ((blocks : List said.Block) → spec.AreDefined blocks numbering.now.names.now.0 own.now → spec.AreNames blocks numbering.now.names.now → map table.core_of needed.now ≡ rules.needed blocks → AddsTrees (rules.rules_of blocks) nodes.old.items nodes.new.items roots.old roots.new) }
{
    push_own(numbering, spare, own, nodes, roots)?;
    let names = numbering.names;
    push_needed(
        numbering.alloc,
        names.own().len(),
        names.core(),
        needed,
        nodes,
        roots,
    )
}

/// The nodes of all rules, and the numbers of their roots. There is room for so many nodes at once.
fn numbered_rules<'s, 't>(
    alloc: Global,
    names: &RuleNames<'t>,
    own: &[Group<Listed<'s, 't>>],
    needed: &[Core],
    room: usize,
) -> Result<(Vec<Node<'t>>, Vec<NodeNo>), AllocError>
    ensures { IfOk result (λ r. (blocks : List said.Block) → spec.AreDefined blocks names.now.0 own.now → spec.AreNames blocks names.now → map table.core_of needed.now ≡ rules.needed blocks → AddsTrees (rules.rules_of blocks) [] r.0.items [] r.1.items) }
{
    let mut nodes = Vec::with_capacity(alloc, room)?;
    let mut roots = List::new(alloc);
    let mut spare = Spare::new(alloc);
    let numbering = Numbering { alloc, names };
    push_rules(&numbering, &mut spare, own, needed, &mut nodes, &mut roots)?;
    // What looks through the nodes needs memory of its own beside them.
    nodes.shrink_to_fit();
    Ok((nodes, roots.into_vec()))
}

/// How many items the blocks have. A text has few nodes more than items, and mostly fewer.
fn item_count(sections: &[Section<'_>]) -> usize {
    let mut count = 0usize;
    for section in sections {
        count = count.saturating_add(section.block.items.len());
    }
    count
}

/// The rules of a text: their names, nodes and roots, and for each whether it leads to prose or to a faulty block.
#[derive(Drop)]
pub(crate) struct Rules<'t> {
    pub names: RuleNames<'t>,
    pub nodes: Vec<Node<'t>>,
    pub roots: Vec<NodeNo>,
    pub opaque: Vec<bool>,
}

/// The rules that these sections say, in which the names stand at these places.
pub(crate) fn rules_said<'t>(
    alloc: Global,
    sections: &[Section<'t>],
    places: &NamesOfText<'t>,
) -> Result<Rules<'t>, AllocError>
    requires { spec.HasBlocks sections.now places.now }
    ensures { IfOk result (λ r. (blocks : List said.Block) → spec.AreRead sections.now places.now blocks → spec.AreRulesOf blocks r) }
{
    let groups = own_groups(alloc, sections)?;
    let (own, members) = groups.into_parts();
    let (names, needed) = rule_names(alloc, own, places)?;
    let (nodes, roots) = numbered_rules(
        alloc,
        &names,
        members.as_slice(),
        needed.as_slice(),
        item_count(sections),
    )?;
    let opaque = reaching(alloc, nodes.as_slice(), roots.as_slice())?;
    Ok(Rules {
        names,
        nodes,
        roots,
        opaque,
    })
}
