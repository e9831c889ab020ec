//! The names of a text: those that its blocks define, and those that stand in it.

ghost use Rattle.std.specs.Prelude.{◌≡◌, ◌++◌, ◌∷◌, [], List, map, filter_map, IfOk, OnOk};
ghost use Rattle.abnf_parts.specs.Names.{folded_text};
ghost use Rattle.abnf_names.specs.Said as said;
ghost use Rattle.abnf_names.specs.Rules.{defined, needed, fault_place};
ghost use Rattle.abnf_names.specs.Places.{named_at};
ghost use Rattle.abnf_names.specs.own.Passes as spec;
ghost use Rattle.abnf_names.specs.Excerpts as excerpts;
ghost use Rattle.abnf_parts.specs.CoreTable as table;

use crate::groups::Groups;
use crate::place::{Spot, places_of};
use crate::section::{Listed, Section};
use abnf_parts::{Core, Names, RuleNames, core_names, is_core_name, needed_rules};
use abnf_syntax::SyntaxFault;
use abnf_token::Folded;
use ls_lists::List;
use ls_text::Place;
use std::alloc::{AllocError, Global};
use std::hash::{DefaultHasher, Hasher};

/// How many bytes a hasher takes at once.
const WORD: usize = 8;

/// Puts a section under the name that its block defines, if it defines one.
fn put_section<'s, 't>(
    alloc: Global,
    groups: &mut Groups<'t, Listed<'s, 't>>,
    section: &'s Section<'t>,
) -> Result<(), AllocError>
    ensures { OnOk result ((seen : List excerpts.Excerpt) → spec.AreGrouped seen groups.old → spec.AreGrouped (seen ++ excerpts.excerpt section.now ∷ []) groups.new) }
{
    match section.block.head() {
        Some(head) => groups.put(alloc, Folded(head.name.text), Listed { section }),
        None => Ok(()),
    }
}

/// Feeds a name to the hasher of a seed, in whole words, which it takes fastest: the bytes of the name, and zeros behind them.
fn feed_name(name: &str, hasher: &mut DefaultHasher) {
    let bytes = name.as_bytes();
    let (words, rest) = bytes.split_at(bytes.len() - bytes.len() % WORD);
    let mut last = [0; WORD];
    last[..rest.len()].copy_from_slice(rest);
    hasher.write(words);
    hasher.write(&last);
}

/// A number that depends on each name that the blocks define, so that a name which is changed to meet others in the table changes where
/// all of them stand. DECISIONS says what is assumed of it.
fn seed_of(sections: &[Section<'_>]) -> u64 {
    let mut hasher = DefaultHasher::new();
    for section in sections {
        if let Some(head) = section.block.head() {
            feed_name(head.name.text, &mut hasher);
        }
    }
    hasher.finish()
}

/// The names that the blocks define, and under each the sections of its blocks.
pub(crate) fn own_groups<'s, 't>(
    alloc: Global,
    sections: &'s [Section<'t>],
) -> Result<Groups<'t, Listed<'s, 't>>, AllocError>
    ensures { IfOk result (λ g. spec.AreGrouped (map excerpts.excerpt sections.now) g) }
{
    let mut groups = Groups::new(alloc, seed_of(sections));
    for section in sections {
        put_section(alloc, &mut groups, section)?;
    }
    Ok(groups)
}

/// Adds a name that a core rule has, unless it is there.
fn add_core_name<'t>(names: &mut Names<'t>, name: Folded<'t>) -> Result<(), AllocError>
    ensures { OnOk result (names.new ≡ spec.with_core_name names.old (folded_text name.entry)) }
{
    if is_core_name(name) {
        names.add(name)?;
    }
    Ok(())
}

/// The names of core rules that stand at these places.
fn core_names_stated<'t>(alloc: Global, spots: &[Spot<'t>]) -> Result<Names<'t>, AllocError>
    ensures { IfOk result (λ names. names ≡ spec.stated (map named_at spots.now)) }
{
    let mut names = Names::new(alloc, 0);
    for spot in spots {
        add_core_name(&mut names, spot.name)?;
    }
    Ok(names)
}

/// The places of names in a text, in its order, and the names of core rules that stand there.
#[derive(Drop)]
pub(crate) struct NamesOfText<'t> {
    pub spots: List<Spot<'t>>,
    pub stated: Names<'t>,
}

/// The places of the names in these blocks.
pub(crate) fn name_places<'t>(
    alloc: Global,
    sections: &[Section<'t>],
) -> Result<NamesOfText<'t>, AllocError>
    ensures { IfOk result (λ found. (blocks : List said.Block) → map excerpts.excerpt sections.now ≡ map excerpts.excerpt_of blocks → spec.AreNamesOfText blocks found) }
{
    let spots = places_of(alloc, sections)?;
    let stated = core_names_stated(alloc, spots.as_slice())?;
    Ok(NamesOfText { spots, stated })
}

/// The names of the rules of the text, which are these, and of the core rules that it needs, and these core rules.
pub(crate) fn rule_names<'t>(
    alloc: Global,
    own: Names<'t>,
    places: &NamesOfText<'t>,
) -> Result<(RuleNames<'t>, List<Core>), AllocError>
    ensures { IfOk result (λ r. (blocks : List said.Block) → own.entry ≡ defined blocks → spec.AreNamesOfText blocks places.now
        → spec.AreNames blocks r.0 × (map table.core_of r.1 ≡ needed blocks)) }
{
    let needed = needed_rules(alloc, &own, &places.stated)?;
    let core = core_names(alloc, needed.as_slice())?;
    Ok((RuleNames::new(own, core), needed))
}

/// The place of a fault; there is none for memory.
fn fault_place(fault: SyntaxFault) -> Option<Place>
    ensures { result ≡ fault_place fault }
{
    match fault {
        SyntaxFault::NoName(place)
        | SyntaxFault::NoDefinedAs(place)
        | SyntaxFault::BadToken(place)
        | SyntaxFault::ElementExpected(place)
        | SyntaxFault::BlankExpected(place)
        | SyntaxFault::Unclosed(place)
        | SyntaxFault::NumberTooLarge(place)
        | SyntaxFault::TooDeep(place) => Some(place),
        SyntaxFault::Memory => None,
    }
}

/// The fault of a section with its place.
fn fault_of(section: &Section<'_>) -> Option<(Place, SyntaxFault)>
    ensures { result ≡ spec.section_fault section.now }
{
    match section.fault {
        Some(fault) => match fault_place(fault) {
            Some(place) => Some((place, fault)),
            None => None,
        },
        None => None,
    }
}

/// The faults of the sections, each with its place.
pub(crate) fn faults_of(
    alloc: Global,
    sections: &[Section<'_>],
) -> Result<List<(Place, SyntaxFault)>, AllocError>
    ensures { IfOk result (λ faults. faults ≡ filter_map spec.section_fault sections.now) }
{
    let mut faults = List::new(alloc);
    for section in sections {
        if let Some(fault) = fault_of(section) {
            faults.push(fault)?;
        }
    }
    Ok(faults)
}
