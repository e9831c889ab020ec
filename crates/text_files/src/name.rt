//! What the name of a file says, or a uri, which ends as one does.
ghost use Rattle.std.specs.Prelude.{◌≡◌};
ghost use Rattle.text_files.specs.Names as spec;

/// Whether a name ends so, in any case of ASCII letters.
pub fn has_ending(name: &str, ending: &str) -> bool
    ensures { result ≡ spec.has_ending ending.now name.now }
{
    let (name, ending) = (name.as_bytes(), ending.as_bytes());
    let start = name.len().saturating_sub(ending.len());
    name[start..].eq_ignore_ascii_case(ending)
}

/// Whether this is the name of a draft in Markdown: it ends in `.md`, `.mkd` or `.markdown`, in any case of ASCII letters.
pub fn is_markdown(name: &str) -> bool
    ensures { result ≡ spec.is_markdown name.now }
{
    has_ending(name, ".md") || has_ending(name, ".mkd") || has_ending(name, ".markdown")
}
