//! Laws of digests. The functions do nothing.

ghost use Rattle.std.specs.Prelude.{◌≡◌, ◌↔◌, ℕ, ◌^◌, ◌<◌, List, [], length, map};
ghost use Rattle.abnf_token.specs.Classes.{Text};
ghost use Rattle.abnf_syntax.specs.Blocks.{line_texts};
ghost use Rattle.abnf_parts.specs.Part.{Part};
ghost use Rattle.abnf_names.specs.Said.{Block, IsWithin, AreSaid};
ghost use Rattle.abnf_names.specs.Rules.{names_of, rules_of};
ghost use Rattle.abnf_lint.specs.declared.finding.Finding.{Finding};
ghost use Rattle.abnf_lint.specs.Rows.{AreRows};
ghost use Rattle.abnf_lint.specs.Unproductive.{IsUnproductive};
ghost use Rattle.abnf_digests.specs.Gists.{gist, IsLike};
ghost use Rattle.abnf_digests.specs.Digests.{digest_of, names_by, rules_by};
ghost use Rattle.abnf_digests.specs.BareItems.{AreBareItems, BareItem};
ghost use Rattle.abnf_digests.specs.Moved.{NoneFound, moved_finding};
ghost use Rattle.abnf_digests.specs.Quiet.{has_own_findings};
ghost use Rattle.abnf_digests.specs.Replaced.{AreReplaced, KeepDigests};
ghost use Rattle.abnf_digests.specs.Roles.{roles_after, roles_by, FindAlike};
ghost use Rattle.abnf_digests.specs.SameLines.{AreSameLines, fault_kind};

/// The names of the rules follow from digests, those of the needed core rules among them.
pub fn digests_name_the_rules()
    ensures { (blocks : List Block) → names_of blocks ≡ names_by (map digest_of blocks) }
{}

/// The gist of a part yields something where the part does, with as many nested references, and has opaque parts and uses of the same
/// rules.
pub fn gists_yield_alike()
    ensures { (rules : List Part) (p : Part) → IsLike rules p (gist p) }
{}

/// The rules that follow from digests are the gists of the text's rules.
pub fn digests_tell_the_gists_of_rules()
    ensures { (blocks : List Block) → map gist (rules_of blocks) ≡ rules_by (map digest_of blocks) }
{}

/// From digests it follows which rules generate nothing and lead to no opaque part.
pub fn digests_tell_what_is_unproductive()
    ensures { (blocks : List Block) (r : ℕ) → IsUnproductive (rules_of blocks) r ↔ IsUnproductive (rules_by (map digest_of blocks)) r }
{}

/// Blocks of the same lines have the same digest, show the same fault or none, and both have findings of their own or neither, whatever
/// the numbers of the lines and whatever else stands in their texts.
pub fn digests_know_no_lines()
    ensures { (ls others : List Text) (bounds there : ℕ × ℕ) (block other : Block) → AreSameLines ls others bounds there →
        IsWithin ls bounds block → IsWithin others there other →
        (digest_of block ≡ digest_of other) × (fault_kind block ≡ fault_kind other) × (has_own_findings block ≡ has_own_findings other) }
{}

/// From digests it follows which heads are duplicates, which add to nothing, and which are the first of their names.
pub fn digests_tell_roles()
    ensures { (blocks : List Block) → roles_after [] blocks ≡ roles_by [] (map digest_of blocks) }
{}

/// In texts with the same digests the same names stand for rules, the same rules generate nothing, and the heads have the same roles,
/// block for block.
pub fn equal_digests_find_alike()
    ensures { (blocks others : List Block) → map digest_of blocks ≡ map digest_of others → FindAlike blocks others }
{}

/// Where a part of a text is replaced, between places over which no block goes, and the indent of the blocks stays, the
/// blocks before and behind it keep their digests. So those of the lines in between are all that must be read anew.
pub fn one_part_is_read_anew()
    ensures { (text other : List ℕ) (front old new : ℕ) (blocks fresh : List Block) →
        AreReplaced (line_texts text) (line_texts other) front old new → AreSaid text blocks → AreSaid other fresh →
        KeepDigests (line_texts text) (line_texts other) front old new blocks fresh }
{}

/// Where a part of a text is replaced by other lines that say the same of blocks, and nothing is found in that part, all
/// that is found in the text is found in the other one, moved with its lines, and nothing else.
pub fn findings_move()
    ensures { (text other : List ℕ) (front old new : ℕ) (bare_items : List BareItem) (rows : List Finding) →
        length text < 2 ^ 62 → length other < 2 ^ 62 → AreReplaced (line_texts text) (line_texts other) front old new →
        AreBareItems (line_texts text) front old bare_items → AreBareItems (line_texts other) front new bare_items →
        NoneFound front old rows → AreRows text rows → AreRows other (map (moved_finding front old new) rows) }
{}
