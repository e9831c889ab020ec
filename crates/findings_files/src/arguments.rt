//! What the arguments ask for.

ghost use Rattle.std.specs.Prelude.{◌≡◌, ◌⊎◌, Err, IfErr, IfOk, Ok};
ghost use Rattle.findings_files.specs.Arguments as spec;

use crate::ending::Ending;
use crate::format::Format;
use crate::step::{Expected, Step, further};
use ls_lists::{List, Text};
use std::alloc::{AllocError, Global};

/// What is asked of each file.
#[derive(Clone, Copy, Debug, Drop, PartialEq, Eq)]
pub enum Asked {
    /// The findings, of which warnings pass.
    Findings,
    /// The findings, and no warning is to pass.
    StrictFindings,
    /// The rules, with what is known of their shortest strings.
    Rules,
    /// The grammar itself.
    Grammar,
}

/// What the options and the files say.
#[derive(Drop)]
pub struct Arguments {
    /// What is asked of each file.
    pub asked: Asked,
    /// What the files are written in of which something is asked; where it is `None` their names say it.
    pub format: Option<Format>,
    /// The files whose names are known; what each is written in its name says.
    pub with: List<Text>,
    /// The files of which something is asked, in their order.
    pub files: List<Text>,
}

/// What is to be done.
#[derive(Drop)]
pub enum Request {
    /// To print how the program is used.
    Help,
    /// To print which version it is.
    Version,
    /// To print what is asked of files. There is one at least.
    Print(Arguments),
}

/// What is asked for where no argument says anything.
fn no_arguments(alloc: Global) -> Arguments
    ensures { result ≡ spec.no_arguments }
{
    Arguments {
        asked: Asked::Findings,
        format: None,
        with: List::new(alloc),
        files: List::new(alloc),
    }
}

/// Whether what is asked for goes with other files, whose names are known.
fn fits(asked: Asked, with: &List<Text>) -> bool
    ensures { result ≡ spec.fits_files asked with.now }
{
    match asked {
        Asked::Grammar => with.is_empty(),
        Asked::Findings | Asked::StrictFindings | Asked::Rules => true,
    }
}

/// What is asked for where no argument is left.
fn ended(stage: Expected, arguments: Arguments) -> Result<Request, Ending>
    ensures { result ≡ spec.request_at_end stage arguments }
{
    match stage {
        Expected::Format | Expected::With => Err(Ending::Usage),
        Expected::Options | Expected::Files | Expected::Rest => {
            if arguments.files.is_empty() || !fits(arguments.asked, &arguments.with) {
                return Err(Ending::Usage);
            }
            Ok(Request::Print(arguments))
        }
    }
}

fn result_of(step: Step) -> Result<Request, Ending>
    ensures { result ≡ spec.request_of_step step }
{
    match step {
        Step::Goes(stage, arguments) => ended(stage, arguments),
        Step::Ends(request) => Ok(request),
        Step::Wrong => Err(Ending::Usage),
    }
}

/// Where the reading is behind these arguments.
fn read(alloc: Global, words: &[Text]) -> Result<Step, AllocError>
    ensures { IfOk result (λ step. step ≡ spec.read words.now) }
{
    let mut step = Step::Goes(Expected::Options, no_arguments(alloc));
    for word in words {
        step = further(alloc, step, word.as_str())?;
    }
    Ok(step)
}

/// What the arguments ask for, without the name of the program. They are read from left to right, and what stands behind
/// `--help`, `--version` or what is wrong doesn't count. Time goes by their length.
///
/// # Errors
///
/// `Usage` where they are no arguments of the program: where one is wrong, nothing stands behind `--format` or `--with`,
/// no file is named, or a grammar is to be printed with others. `OutOfMemory` where an allocation is refused.
pub fn request_of(alloc: Global, words: &[Text]) -> Result<Request, Ending>
    ensures ok { IfOk result (λ request. spec.request_of words.now ≡ Ok request) }
    ensures err { IfErr result (λ ending. (ending ≡ Ending.OutOfMemory) ⊎ (spec.request_of words.now ≡ Err ending)) }
{
    result_of(read(alloc, words)?)
}
