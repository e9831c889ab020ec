//! How the program is used.

ghost use Rattle.std.specs.Prelude.{◌≡◌, IfOk, OnOk, map, string_bytes};
ghost use Rattle.findings_files.specs.Help as spec;

use crate::ending::Ending;
use ls_lists::Text;
use std::alloc::{AllocError, Global};

/// What stands below the line of usage.
fn options() -> &'static [&'static str]
    ensures { map (λ line. line.now) result.now ≡ spec.options }
{
    &[
        "Prints what is found in the ABNF grammars of files: of drafts and published RFCs too.",
        "The file - is standard input.",
        "",
        "  --strict         warnings count as errors do for the exit status",
        "  --rules          prints the rules and their shortest strings instead",
        "  --grammar        prints the grammars themselves instead",
        "  --with FILE      the names that FILE defines are known; it may stand more than once",
        "  --format FORMAT  what each FILE is written in: abnf, markdown, xml or text",
        "  --               what follows are files, whatever their names are",
        "  --help           prints this",
        "  --version        prints the version",
    ]
}

/// Appends a line.
fn push_line(text: &mut String, line: &str) -> Result<(), AllocError>
    ensures { OnOk result (string_bytes text.new ≡ spec.with_help_line (string_bytes text.old) line.now) }
{
    text.push_str(line)?;
    text.push_str("\n")?;
    Ok(())
}

/// What `--help` prints: the line of usage, and what there is to say of each option.
///
/// # Errors
///
/// Where an allocation is refused.
pub fn help(alloc: Global) -> Result<Text, AllocError>
    ensures { IfOk result (λ text. text ≡ spec.help) }
{
    let mut text = String::new(alloc);
    push_line(&mut text, Ending::Usage.line())?;
    for line in options() {
        push_line(&mut text, line)?;
    }
    Ok(Text::new(text))
}
