// An image unpacked into a listing.
ghost use Rattle.std.specs.Prelude.{◌≡◌, Some, IfOk, string_bytes, MatchResult};
ghost use Rattle.packing.specs.Unpacks.{Unpacks, Declines, fault_of, refusal_words, refusal_text};
ghost use Rattle.packing.specs.declared.unpacking.UnpackFault.TheVariants.{NoMemory};

use history::History;
use image::{Image, ImageRefusal, OpenFault, Unopened};
use listing::{WriteFault, write_listing};
use std::alloc::{AllocError, Global};
use std::fmt;
use transactions::{TransactionTable, Unfit};

// The bytes that the listing of an image can have: 26 for each event at the most.
const LONGEST: usize = 106470;

// Why an image is not unpacked: the bytes are none, its events do not fit, or there is no memory.
#[derive(Clone, Copy, PartialEq, Eq, Debug)]
pub enum UnpackFault {
    NoImage(ImageRefusal),
    NotFit(Unfit),
    NoMemory,
}

// By hand, since a derived `From` says nothing of what it makes; so for the next.
impl From<AllocError> for UnpackFault {
    ghost from_gives = { λ _ r. r ≡ NoMemory };

    fn from(_: AllocError) -> UnpackFault {
        UnpackFault::NoMemory
    }
}

impl From<Unopened> for UnpackFault {
    ghost from_gives = { λ unopened r. r ≡ fault_of unopened.why };

    fn from(unopened: Unopened) -> UnpackFault {
        match unopened.why {
            OpenFault::Refused(refusal) => UnpackFault::NoImage(refusal),
            OpenFault::NoMemory => UnpackFault::NoMemory,
        }
    }
}

impl fmt::Display for UnpackFault {
    ghost output = { λ fault. Some (refusal_words fault) };

    fn fmt<W: fmt::Write>(&self, f: &mut fmt::Formatter<W>) -> fmt::Result {
        match self {
            UnpackFault::NoImage(refusal) => write!(f, "refused {}", refusal.number()),
            UnpackFault::NotFit(unfit) => {
                let position = unfit.position;
                let question = unfit.refusal.number();
                write!(f, "refused 11 {position} {question}")
            }
            UnpackFault::NoMemory => write!(f, "no memory"),
        }
    }
}

// The listing of an image's events, or why there is none.
pub fn unpack(heap: Global, bytes: Vec<u8>) -> Result<Vec<u8>, UnpackFault>
    ensures { MatchResult result (λ text. Unpacks bytes.items text.items) (λ fault. Declines bytes.items fault) }
{
    let mut text = vec![in heap; 0u8; LONGEST]?;
    let mut table = TransactionTable::new(heap)?;
    let image = Image::open(heap, bytes)?;
    match write_listing(&image, &mut table, &mut text) {
        Ok(length) => {
            text.truncate(length);
            Ok(text)
        }
        Err(WriteFault::NotFit(unfit)) => Err(UnpackFault::NotFit(unfit)),
        Err(WriteFault::TooShort) => unreachable(),
    }
}

// The line that says why an image is not unpacked.
pub fn refusal_line(heap: Global, fault: UnpackFault) -> Result<String, AllocError>
    ensures { IfOk result (λ line. string_bytes line ≡ refusal_text fault) }
{
    format!(in heap; "{fault}\n")
}
