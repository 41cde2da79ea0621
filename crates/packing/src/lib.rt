// Listings packed into images and back, and what an image keeps.
#![tactic(auto)]

mod keeping;
mod packing;
mod unpacking;

pub use keeping::{copy_to_image, reopen};
pub use packing::{PackFault, pack};
pub use unpacking::{UnpackFault, refusal_line, unpack};
