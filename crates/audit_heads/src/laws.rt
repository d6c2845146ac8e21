//! Laws of heads. Each law is what an empty function ensures.

ghost use Rattle.std.specs.Prelude.{◌≡◌, ◌+◌, ◌*◌, ◌≤◌, ◌++◌, ℕ, List, length, Ok};
ghost use Rattle.std.specs.List.{AllByRecursion};
ghost use Rattle.dp_line.specs.World.{Description};
ghost use Rattle.audit_heads.specs.Rows.{Left, row_text};
ghost use Rattle.audit_heads.specs.Head.{Head, head_read, head_rows, head_text, world_in};
ghost use Rattle.audit_heads.specs.Limits.{IsWithin};

/// A head of a line is read back from its text, exactly, whatever follows the text.
pub fn a_head_is_read_back()
    ensures follows { (line : Description) (head : Head) (rest : List ℕ) → IsWithin line head
        → (number : ℕ) × (head_read line (head_text line.number head ++ rest) ≡ Ok (head, record { number = number; text = rest })) }
    ensures alone { (line : Description) (head : Head) → IsWithin line head → world_in line (head_text line.number head) ≡ Ok head }
{}

/// What is read is written so: a text that is read as a head begins with the text of this head, and nothing else
/// has been read of it.
pub fn only_what_is_written_is_read()
    ensures follows { (line : Description) (text : List ℕ) (head : Head) (left : Left)
        → head_read line text ≡ Ok (head, left) → text ≡ head_text line.number head ++ left.text }
    ensures alone { (line : Description) (text : List ℕ) (head : Head) → world_in line text ≡ Ok head → text ≡ head_text line.number head }
{}

/// A head of a line with S slaves and M masters has 2 + S * (6 + M) rows. Each row has at most 986 octets, its LF
/// included. The head of a line with at most 64 slaves and 16 masters has at most 733,960 octets.
pub fn a_head_has_a_bounded_size()
    ensures rows { (line : Description) (head : Head) → IsWithin line head
        → length (head_rows line.number head) ≡ 2 + length head.world.slaves * (6 + length line.masters) }
    ensures row { (line : Description) (head : Head) → IsWithin line head
        → AllByRecursion (λ words. length (row_text words) ≤ 986) (head_rows line.number head) }
    ensures head { (line : Description) (head : Head) → IsWithin line head
        → length head.world.slaves ≤ 64 → length line.masters ≤ 16 → length (head_text line.number head) ≤ 733_960 }
{}
