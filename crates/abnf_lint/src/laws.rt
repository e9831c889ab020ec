//! Laws of what generates anything, and of findings. The functions do nothing.

ghost use Rattle.std.specs.Prelude.{◌≡◌, ◌<◌, ◌^◌, ℕ, List, length};
ghost use Rattle.abnf_lint.specs.declared.finding.Finding.{Finding};
ghost use Rattle.abnf_lint.specs.Rows.{AreRows};
ghost use Rattle.abnf_lint.specs.Yields.{YieldingIsGenerating};

/// A text has at most one list of findings: the table and the order settle it.
pub fn findings_are_unique()
    ensures { (text : List ℕ) (xs ys : List Finding) → AreRows text xs → AreRows text ys → xs ≡ ys }
{}

/// Each text of fewer than 2^62 characters has its findings, and so each text of a document, which has at most 4,194,304 bytes.
pub fn findings_exist()
    ensures { (text : List ℕ) → length text < 2 ^ 62 → (found : List Finding) × AreRows text found }
{}

/// A rule yields something with so many nested references exactly where it generates a string with so many. Yielding is
/// asked of no string.
pub fn yielding_is_generating()
    ensures { YieldingIsGenerating }
{}
