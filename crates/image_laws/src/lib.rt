// What an append leaves of an image's bytes.
#![tactic(auto)]

ghost use Rattle.image_laws.specs.Bytes.{AppendStays};

// An event that enters an image changes slot 0, the new slot and the next word of the slot that was last, and no other byte.
pub fn append_stays()
    ensures { AppendStays }
{}
