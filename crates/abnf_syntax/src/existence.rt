//! Laws of blocks and items.

ghost use Rattle.std.specs.Prelude.{ℕ, ◌<◌, ◌^◌, ◌⊎◌, All, length, map, List};
ghost use Rattle.abnf_syntax.specs.Blocks.{line_texts, AreBlocks};
ghost use Rattle.abnf_syntax.specs.Bounds.{bounds};
ghost use Rattle.abnf_syntax.specs.Items.{AreItems};
ghost use Rattle.abnf_syntax.specs.Grammar.{Derives};
ghost use Rattle.abnf_syntax.specs.Faults.{Faults};
ghost use Rattle.abnf_syntax.specs.declared.block.Block.{Block};
ghost use Rattle.abnf_syntax.specs.declared.fault.SyntaxFault.{SyntaxFault};
ghost use Rattle.abnf_syntax.specs.declared.item.Item.{Item};
ghost use Rattle.abnf_syntax.specs.declared.tree.Rule.{Rule};

/// Each list of one or more items says a rule, or shows a fault.
pub fn items_say_something()
    ensures { (items : List Item) → 0 < length items
        → ((rule : Rule) × Derives items rule) ⊎ ((fault : SyntaxFault) × Faults items fault) }
{}

/// Each text of fewer than 2^62 characters has blocks, and each of them has items, at least one.
pub fn texts_have_blocks()
    ensures { (text : List ℕ) → length text < 2 ^ 62
        → (blocks : List Block) × AreBlocks (line_texts text) 0 (map bounds blocks)
        × All (λ b. AreItems (line_texts text) b.first b.end b.items × (0 < length b.items)) blocks }
{}
