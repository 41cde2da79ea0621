// A table of kinds in lent bytes: byte 256 * tail + head has the kinds of the edges from tail to head. Its 256 vertices take
// 65,536 bytes; what lies past them is never written.
#![tactic(auto)]

ghost use Rattle.std.specs.Prelude.{◌≡◌, ℕ, ◌<◌, ◌≤◌, ◌&&◌, length, drop, if◌then◌else◌, ◌==◌, bit_or, nat_eq};
ghost use Rattle.graph.specs.Kinds.{bit_of};
ghost use Rattle.verdicts.specs.Tables.{byte};

use graph::Kind;

// No edge is left.
pub fn clear(bytes: &mut [u8])
    ensures pairs { (a b : ℕ) → a < 256 → b < 256 → byte bytes.new a b ≡ 0 }
    ensures later { drop 65536 bytes.new ≡ drop 65536 bytes.old }
{
    let end = bytes.len().min(65536);
    bytes[0..end].fill(0);
}

// One kind more from tail to head; nothing changes where one of them is no vertex, or the bytes are too few.
pub fn add(bytes: &mut [u8], tail: u16, head: u16, kind: Kind)
    ensures pairs { 65536 ≤ length bytes.old → (a b : ℕ) → a < 256 → b < 256 → byte bytes.new a b ≡ (if nat_eq a tail && b == head then bit_or (byte bytes.old a b) (bit_of kind) else byte bytes.old a b) }
    ensures later { drop 65536 bytes.new ≡ drop 65536 bytes.old }
{
    if tail < 256 && head < 256 {
        let at = 256 * tail as usize + head as usize;
        if at < bytes.len() {
            bytes[at] |= kind.bit();
        }
    }
}
