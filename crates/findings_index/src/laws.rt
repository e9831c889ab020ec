//! Laws of what digests tell of names. The functions do nothing.

ghost use Rattle.std.specs.Prelude.{◌≡◌, ◌↔◌, ℕ, Bool, true, List, [], ◌∷◌, ◌++◌, Option, Some, None, Contains, flat_map, map};
ghost use Rattle.ls_text.specs.declared.position.Place.{Place};
ghost use Rattle.abnf_token.specs.Classes.{Text};
ghost use Rattle.abnf_token.specs.Folded.{lowercase};
ghost use Rattle.abnf_syntax.specs.Items.{AreItems};
ghost use Rattle.abnf_syntax.specs.declared.item.Item.{Item};
ghost use Rattle.abnf_syntax.specs.declared.fault.SyntaxFault.{SyntaxFault};
ghost use Rattle.abnf_parts.specs.Names.{Name, rule_number};
ghost use Rattle.abnf_names.specs.Said.{Block, BlockSays, AreSaid};
ghost use Rattle.abnf_names.specs.Places.{Named, places_in};
ghost use Rattle.abnf_names.specs.Rules.{names_of, rules_of};
ghost use Rattle.abnf_names.specs.Shown.{fault_shown, HasFault};
ghost use Rattle.abnf_lint.specs.declared.finding.Code.{Code};
ghost use Rattle.abnf_lint.specs.declared.finding.Finding.{Finding};
ghost use Rattle.abnf_lint.specs.Order.{FindingsAscend};
ghost use Rattle.abnf_lint.specs.Rows.{AreRows, RowHolds};
ghost use Rattle.abnf_lint.specs.Unproductive.{IsUnproductive};
ghost use Rattle.abnf_digests.specs.Digests.{Digest, digest_of};
ghost use Rattle.findings_index.specs.Holding.{HoldsBy, IsStrange};
ghost use Rattle.findings_index.specs.Leading.{LeadsToOpaqueBy};
ghost use Rattle.findings_index.specs.Marked.{AreHoldingMarks, AreLeadingMarks};
ghost use Rattle.findings_index.specs.Found.{found_by, AllAreTold, all_found};
ghost use Rattle.findings_index.specs.ToldOfBlock.{ToldOfBlock, told_by_marks, IsToldOf, RowTold};
ghost use Rattle.findings_index.specs.Words.{names_in};

/// A rule generates nothing and leads to no opaque part exactly where its name neither holds nor leads to something opaque.
pub fn names_tell_what_is_unproductive()
    ensures { (text : List ℕ) (blocks : List Block) (name : Name) (r : ℕ) → AreSaid text blocks → rule_number (names_of blocks) name ≡ Some r →
        IsUnproductive (rules_of blocks) r
        ↔ (((k : ℕ) → HoldsBy (map digest_of blocks) k name → ⊥) × ((uses : ℕ) → LeadsToOpaqueBy (map digest_of blocks) uses name → ⊥)) }
{}

/// Marks that are sound and closed say of each name whether it holds.
pub fn marks_tell_what_holds()
    ensures { (digests : List Digest) (at : Name → Bool) → AreHoldingMarks digests at → (name : Name) → (at name ≡ true) ↔ ((k : ℕ) × HoldsBy digests k name) }
{}

/// Marks that are sound and closed say of each name whether it leads to something opaque.
pub fn marks_tell_what_leads()
    ensures { (digests : List Digest) (at : Name → Bool) → AreLeadingMarks digests at → (name : Name) → (at name ≡ true) ↔ ((uses : ℕ) × LeadsToOpaqueBy digests uses name) }
{}

/// A name that stands in a block stands for no rule exactly where no block defines it and no core rule has it.
pub fn names_stand_for_nothing()
    ensures { (blocks : List Block) (block : Block) (named : Named) → Contains blocks block → Contains (places_in block.items) named →
        (rule_number (names_of blocks) (lowercase named.text) ≡ None) ↔ IsStrange (map digest_of blocks) (lowercase named.text) }
{}

/// A row of the table of findings holds of a block exactly where it does by the block's items, its fault, and what is told of it.
pub fn rows_by_told()
    ensures { (text : List ℕ) (blocks before : List Block) (block : Block) (after : List Block) → AreSaid text blocks → blocks ≡ before ++ block ∷ after →
        (told : ToldOfBlock) → IsToldOf (map digest_of blocks) (map digest_of before) (digest_of block) told → (place : Place) (name : List ℕ) (code : Code) →
        RowHolds blocks before block place name code ↔ RowTold told block.items (fault_shown block.said) place name code }
{}

/// Marks that are sound and closed tell of each block what is to be told of it.
pub fn marks_tell_of_blocks()
    ensures { (digests before : List Digest) (digest : Digest) (held led : Name → Bool) → AreHoldingMarks digests held → AreLeadingMarks digests led →
        IsToldOf digests before digest (told_by_marks digests before held led digest) }
{}

/// What is found in a block by its items, its fault and what is told of it are the rows that hold of it by these.
pub fn blocks_are_found_by_told()
    ensures { (told : ToldOfBlock) (items : List Item) (fault : Option SyntaxFault) → HasFault items fault → (found : Finding) →
        Contains (found_by told items fault) found ↔ RowTold told items fault found.place found.name found.code }
{}

/// What is found in a block is found in order.
pub fn blocks_are_found_in_order()
    ensures { (ls : List Text) (bounds : ℕ × ℕ) (told : ToldOfBlock) (items : List Item) (fault : Option SyntaxFault) →
        AreItems ls bounds.0 bounds.1 items → HasFault items fault → FindingsAscend (found_by told items fault) }
{}

/// What is found in the blocks of a text by what is told of them, one after the other, are the rows of the table, in order.
pub fn texts_are_found_by_told()
    ensures { (text : List ℕ) (blocks : List Block) (tolds : List ToldOfBlock) → AreSaid text blocks →
        AllAreTold (map digest_of blocks) [] (map digest_of blocks) tolds → AreRows text (all_found tolds blocks) }
{}

/// A block that says a rule says alternatives whose gists have each name that its items use.
pub fn rules_use_the_names_of_their_items()
    ensures { (block : Block) → BlockSays block.items block.said → fault_shown block.said ≡ None → (name : Name) → Contains (digest_of block).uses name →
        Contains (flat_map names_in (digest_of block).said) name }
{}
