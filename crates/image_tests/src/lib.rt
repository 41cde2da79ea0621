// Tests of images built by hand, word for word, and of packing and unpacking.
#![tactic(auto)]

#[cfg(test)]
mod images;

#[cfg(test)]
mod tests {
    use crate::images::{GOOD, REFUSED};
    use packing::{PackFault, UnpackFault, pack, refusal_line, unpack};
    use std::alloc::{AllocError, Global};
    use std::process::Abort;
    use std::test::Fail;

    // The bytes of slots, low byte first.
    fn bytes_of(heap: Global, slots: &[[u16; 8]]) -> Result<Vec<u8>, AllocError> {
        let mut bytes = Vec::new(heap);
        for word in slots.as_flattened() {
            bytes.extend_from_slice(&word.to_le_bytes())?;
        }
        Ok(bytes)
    }

    // What unpacking says: the listing, or the line of the refusal.
    fn unpacked(heap: Global, bytes: Vec<u8>) -> Result<Vec<u8>, Fail> {
        match unpack(heap, bytes) {
            Ok(text) => Ok(text),
            Err(UnpackFault::NoMemory) => Err(AllocError.into()),
            Err(fault) => Ok(refusal_line(heap, fault)?.into_bytes()),
        }
    }

    // Each image has the text beside it.
    fn all_match(rt: &impl Abort, heap: Global, table: &[(&[[u16; 8]], &str)]) -> Result<(), Fail> {
        for (slots, expected) in table {
            let text = unpacked(heap, bytes_of(heap, slots)?)?;
            assert!(rt; text.as_slice() == expected.as_bytes(), "{}", expected);
        }
        Ok(())
    }

    #[test]
    fn good_images_have_their_listings(rt: HostRuntime) -> Result<(), Fail> {
        all_match(&rt, rt.alloc(), &GOOD)
    }

    #[test]
    fn bad_images_have_their_questions(rt: HostRuntime) -> Result<(), Fail> {
        all_match(&rt, rt.alloc(), &REFUSED)
    }

    // What unpacking says of so many bytes 0.
    fn of_length(
        rt: &impl Abort,
        heap: Global,
        length: usize,
        expected: &[u8],
    ) -> Result<(), Fail> {
        let text = unpacked(heap, vec![in heap; 0u8; length]?)?;
        assert!(rt; text.as_slice() == expected);
        Ok(())
    }

    #[test]
    fn lengths_are_whole_slots(rt: HostRuntime) -> Result<(), Fail> {
        of_length(&rt, rt.alloc(), 0, b"refused 12\n")?;
        of_length(&rt, rt.alloc(), 15, b"refused 12\n")?;
        of_length(&rt, rt.alloc(), 16, b"")?;
        of_length(&rt, rt.alloc(), 17, b"refused 12\n")?;
        of_length(&rt, rt.alloc(), 65536, b"")?;
        of_length(&rt, rt.alloc(), 65552, b"refused 12\n")
    }

    #[test]
    fn a_long_listing_comes_back(rt: HostRuntime) -> Result<(), Fail> {
        let mut text = String::from_str(rt.alloc(), "b 1 PL-1\n")?;
        for _ in 0..4094u16 {
            text.push_str("r 1 1024 0.0\n")?;
        }
        match pack(rt.alloc(), text.as_bytes()) {
            Ok(bytes) => {
                assert!(rt; bytes.len() == 65536);
                let again = unpacked(rt.alloc(), bytes)?;
                assert!(rt; again.as_slice() == text.as_bytes());
                Ok(())
            }
            Err(PackFault::Listing(_)) => Err(Fail::new("the listing has no fault")),
            Err(PackFault::NoMemory) => Err(AllocError.into()),
        }
    }
}
