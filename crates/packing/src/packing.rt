// A listing packed into an image.
ghost use Rattle.std.specs.Prelude.{◌≡◌, MatchResult};
ghost use Rattle.packing.specs.Packs.{Packs, Halts};
ghost use Rattle.packing.specs.declared.packing.PackFault.TheVariants.{Listing, NoMemory};

use history::{History, Tape};
use image::Image;
use listing::{Fault, read_listing};
use recorder::Recorder;
use std::alloc::{AllocError, Global};
use transactions::TransactionTable;

// The events that the image has room for.
const CAPACITY: u16 = 4095;

// Why a listing is not packed: its first fault, or there is no memory.
#[derive(Clone, Copy, PartialEq, Eq, Debug)]
pub enum PackFault {
    Listing(Fault),
    NoMemory,
}

// By hand, since a derived `From` says nothing of what it makes; so for the next.
impl From<Fault> for PackFault {
    ghost from_gives = { λ fault r. r ≡ Listing fault };

    fn from(fault: Fault) -> PackFault {
        PackFault::Listing(fault)
    }
}

impl From<AllocError> for PackFault {
    ghost from_gives = { λ _ r. r ≡ NoMemory };

    fn from(_: AllocError) -> PackFault {
        PackFault::NoMemory
    }
}

// Records a text on an empty image of 65,536 bytes and answers its bytes.
pub fn pack(heap: Global, text: &[u8]) -> Result<Vec<u8>, PackFault>
    ensures { MatchResult result (λ bytes. Packs text.now bytes.items) (λ fault. Halts text.now fault) }
{
    let mut recorder: Recorder<Image> = Recorder::empty(heap, CAPACITY)?;
    read_listing(&mut recorder, text)?;
    let (image, _) = recorder.into_parts();
    Ok(image.into_bytes())
}
