//! Laws of captures: each is the contract of a function that does nothing.

ghost use Rattle.std.specs.Prelude.{◌≡◌, List, Some, map};
ghost use Rattle.std.specs.List.{AllByRecursion};
ghost use Rattle.capture_texts.specs.Blocks.{Block, capture_octets};
ghost use Rattle.capture_texts.specs.ReadBack.{IsWithinLimits, blocks_in, framed_block, telegrams, telegrams_in};

/// A reader who cuts a capture by the lengths in it gets its blocks, and of the packets exactly their telegrams, in order.
pub fn a_capture_is_read_back()
    ensures blocks { (blocks : List Block) → AllByRecursion IsWithinLimits blocks → blocks_in (capture_octets blocks) ≡ Some (map framed_block blocks) }
    ensures telegrams { (blocks : List Block) → AllByRecursion IsWithinLimits blocks → telegrams_in (map framed_block blocks) ≡ telegrams blocks }
{}
