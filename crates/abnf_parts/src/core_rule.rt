//! The core rules of RFC 5234, appendix B.1.

ghost use Rattle.std.specs.Prelude.{◌≡◌, ℕ, [], map, fold, filter, Option, IfOk};
ghost use Rattle.std.specs.List.{list_any};
ghost use Rattle.std.specs.Str.{bytes_eq};
ghost use Rattle.abnf_token.specs.Folded.{lowercase};
ghost use Rattle.abnf_parts.specs.Names.{Name, folded_text, names_beside, with_name};
ghost use Rattle.abnf_parts.specs.Core.{is_core_name, is_needed, core_rules, core_name};
ghost use Rattle.abnf_parts.specs.CoreTable as table;

use crate::names::Names;
use abnf_token::Folded;
use ls_lists::List;
use std::alloc::{AllocError, Global};

/// A core rule of RFC 5234, appendix B.1, by its name.
#[derive(Clone, Copy, Debug)]
pub enum Core {
    Alpha,
    Bit,
    Char,
    Cr,
    Crlf,
    Ctl,
    Digit,
    Dquote,
    Hexdig,
    Htab,
    Lf,
    Lwsp,
    Octet,
    Sp,
    Vchar,
    Wsp,
}

/// What stands in a core rule.
#[derive(Clone, Copy, Debug)]
pub(crate) enum Leaf {
    /// One character from the first to the second.
    Range(u32, u32),
    One(u32),
    Text(&'static str),
    Rule(&'static str),
}

/// The core rules, in the order of RFC 5234.
const CORE_RULES: [Core; 16] = [
    Core::Alpha,
    Core::Bit,
    Core::Char,
    Core::Cr,
    Core::Crlf,
    Core::Ctl,
    Core::Digit,
    Core::Dquote,
    Core::Hexdig,
    Core::Htab,
    Core::Lf,
    Core::Lwsp,
    Core::Octet,
    Core::Sp,
    Core::Vchar,
    Core::Wsp,
];

impl Core {
    /// The name of the rule.
    pub(crate) fn name(self) -> &'static str
        ensures { result.now ≡ (table.core_of self).name }
    {
        match self {
            Core::Alpha => "ALPHA",
            Core::Bit => "BIT",
            Core::Char => "CHAR",
            Core::Cr => "CR",
            Core::Crlf => "CRLF",
            Core::Ctl => "CTL",
            Core::Digit => "DIGIT",
            Core::Dquote => "DQUOTE",
            Core::Hexdig => "HEXDIG",
            Core::Htab => "HTAB",
            Core::Lf => "LF",
            Core::Lwsp => "LWSP",
            Core::Octet => "OCTET",
            Core::Sp => "SP",
            Core::Vchar => "VCHAR",
            Core::Wsp => "WSP",
        }
    }

    /// The core rules that need this one: itself, those that use it, those that use these, and so on.
    fn users(self) -> &'static [&'static str]
        ensures { map (λ user. lowercase user.now) result.now ≡ table.users_of self }
    {
        match self {
            Core::Alpha => &["ALPHA"],
            Core::Bit => &["BIT"],
            Core::Char => &["CHAR"],
            Core::Cr => &["CR", "CRLF", "LWSP"],
            Core::Crlf => &["CRLF", "LWSP"],
            Core::Ctl => &["CTL"],
            Core::Digit => &["DIGIT", "HEXDIG"],
            Core::Dquote => &["DQUOTE"],
            Core::Hexdig => &["HEXDIG"],
            Core::Htab => &["HTAB", "WSP", "LWSP"],
            Core::Lf => &["LF", "CRLF", "LWSP"],
            Core::Lwsp => &["LWSP"],
            Core::Octet => &["OCTET"],
            Core::Sp => &["SP", "WSP", "LWSP"],
            Core::Vchar => &["VCHAR"],
            Core::Wsp => &["WSP", "LWSP"],
        }
    }

    /// The alternatives of the rule, each a row; of LWSP those that are repeated.
    pub(crate) fn rows(self) -> &'static [&'static [Leaf]]
        ensures { (number : Name → Option ℕ) → table.tree_by self (table.choice number result.now) ≡ (table.core_of self).tree number }
    {
        match self {
            Core::Alpha => &[&[Leaf::Range(0x41, 0x5A)], &[Leaf::Range(0x61, 0x7A)]],
            Core::Bit => &[&[Leaf::Text("0")], &[Leaf::Text("1")]],
            Core::Char => &[&[Leaf::Range(0x01, 0x7F)]],
            Core::Cr => &[&[Leaf::One(0x0D)]],
            Core::Crlf => &[&[Leaf::Rule("CR"), Leaf::Rule("LF")]],
            Core::Ctl => &[&[Leaf::Range(0x00, 0x1F)], &[Leaf::One(0x7F)]],
            Core::Digit => &[&[Leaf::Range(0x30, 0x39)]],
            Core::Dquote => &[&[Leaf::One(0x22)]],
            Core::Hexdig => &[
                &[Leaf::Rule("DIGIT")],
                &[Leaf::Text("A")],
                &[Leaf::Text("B")],
                &[Leaf::Text("C")],
                &[Leaf::Text("D")],
                &[Leaf::Text("E")],
                &[Leaf::Text("F")],
            ],
            Core::Htab => &[&[Leaf::One(0x09)]],
            Core::Lf => &[&[Leaf::One(0x0A)]],
            Core::Lwsp => &[
                &[Leaf::Rule("WSP")],
                &[Leaf::Rule("CRLF"), Leaf::Rule("WSP")],
            ],
            Core::Octet => &[&[Leaf::Range(0x00, 0xFF)]],
            Core::Sp => &[&[Leaf::One(0x20)]],
            Core::Vchar => &[&[Leaf::Range(0x21, 0x7E)]],
            Core::Wsp => &[&[Leaf::Rule("SP")], &[Leaf::Rule("HTAB")]],
        }
    }
}

/// Whether a name is stated and isn't defined.
fn is_undefined(defined: &Names<'_>, stated: &Names<'_>, name: Folded<'_>) -> bool
    ensures { result ≡ list_any (bytes_eq (folded_text name.entry)) (names_beside defined.now stated.now) }
{
    stated.contains(name) && !defined.contains(name)
}

/// Whether one of these names is stated and isn't defined.
fn is_wanted(defined: &Names<'_>, stated: &Names<'_>, users: &[&'static str]) -> bool
    ensures { result ≡ table.is_core_wanted (names_beside defined.now stated.now) (map (λ user. lowercase user.now) users.now) }
{
    for user in users {
        if is_undefined(defined, stated, Folded(*user)) {
            return true;
        }
    }
    false
}

/// Whether a core rule is needed where these names are defined and those are stated.
fn is_needed(defined: &Names<'_>, stated: &Names<'_>, core: Core) -> bool
    ensures { result ≡ is_needed (names_beside defined.now stated.now) (table.core_of core) }
{
    is_wanted(defined, stated, core.users())
}

/// Those of some core rules that are needed where these names are defined and those are stated.
fn needed_among(
    alloc: Global,
    defined: &Names<'_>,
    stated: &Names<'_>,
    rules: &[Core],
) -> Result<List<Core>, AllocError>
    ensures { IfOk result (λ needed. map table.core_of needed ≡ filter (is_needed (names_beside defined.now stated.now)) (map table.core_of rules.now)) }
{
    let mut needed = List::new(alloc);
    for core in rules {
        if is_needed(defined, stated, *core) {
            needed.push(*core)?;
        }
    }
    Ok(needed)
}

/// The core rules that are needed where a text defines some names, and these are all that stand in it: those that a name stands for
/// which it doesn't define, and those that a needed one uses. They come in the order of RFC 5234.
///
/// # Errors
///
/// Where an allocation is refused.
pub fn needed_rules(
    alloc: Global,
    defined: &Names<'_>,
    stated: &Names<'_>,
) -> Result<List<Core>, AllocError>
    ensures { IfOk result (λ needed. map table.core_of needed ≡ filter (is_needed (names_beside defined.now stated.now)) core_rules) }
{
    needed_among(alloc, defined, stated, &CORE_RULES)
}

/// The names of these core rules, in their order, each once.
///
/// # Errors
///
/// Where an allocation is refused.
pub fn core_names<'t>(alloc: Global, needed: &[Core]) -> Result<Names<'t>, AllocError>
    ensures { IfOk result (λ names. names ≡ fold with_name [] (map (λ core. core_name (table.core_of core)) needed.now)) }
{
    let mut names = Names::new(alloc, 0);
    for core in needed {
        names.add(Folded(core.name()))?;
    }
    Ok(names)
}

/// Whether one of these core rules has this name.
fn has_name(rules: &[Core], name: Folded<'_>) -> bool
    ensures { result ≡ list_any (λ core. bytes_eq (core_name core) (folded_text name.entry)) (map table.core_of rules.now) }
{
    for core in rules {
        if Folded(core.name()) == name {
            return true;
        }
    }
    false
}

/// The most bytes that the name of a core rule has.
const LONGEST_NAME: usize = 6;

/// Whether a core rule of RFC 5234, appendix B.1, has this name, in any case of letters.
pub fn is_core_name(name: Folded<'_>) -> bool
    ensures { result ≡ is_core_name (folded_text name.entry) }
{
    name.0.len() <= LONGEST_NAME && has_name(&CORE_RULES, name)
}
