//! Laws of arguments. The functions do nothing.

ghost use Rattle.std.specs.Prelude.{◌≡◌, ◌≢◌, [], ◌∷◌, ◌++◌, All, List, Ok, ℕ, codes};
ghost use Rattle.findings_files.specs.Arguments.{no_arguments, request_of, argument_word};
ghost use Rattle.findings_files.specs.declared.arguments.Request.TheVariants as r;
ghost use Rattle.findings_files.specs.declared.word.Word.TheVariants as w;

/// `--help` asks for help, whatever follows it.
pub fn help_comes_first()
    ensures { (words : List (List ℕ)) → request_of (codes "--help" ∷ words) ≡ Ok r.Help }
{}

/// Files with no option ahead of them are asked for their findings, one file or more.
pub fn files_alone_ask_for_findings()
    ensures { (files : List (List ℕ)) → files ≢ [] → All (λ file. argument_word file ≡ w.File) files
        → request_of files ≡ Ok (r.Print (record no_arguments { files = files })) }
{}
