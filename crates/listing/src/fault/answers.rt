// What a fault says of itself.
ghost use Rattle.std.specs.Prelude.{◌≡◌, Some};
ghost use Rattle.listing.specs.Faults.{fault_number, fault_layer, fault_column, layer_word, fault_text};
ghost use Rattle.listing.specs.Writings.{write_number};

use super::{Fault, Layer, LineFault, WriteFault};
use events::Refusal;
use lines::FormFault;
use std::fmt;

impl Layer {
    // The word for the layer.
    pub fn word(self) -> &'static str
        ensures { result.now ≡ layer_word self }
    {
        match self {
            Layer::Listing => "listing",
            Layer::Recorder => "recorder",
            Layer::Tape => "tape",
        }
    }
}

// Its word.
impl fmt::Display for Layer {
    ghost output = { λ layer. Some (layer_word layer) };

    fn fmt<W: fmt::Write>(&self, f: &mut fmt::Formatter<W>) -> fmt::Result {
        f.pad(self.word())
    }
}

impl Fault {
    // The number of the question that answers no. By a match, as that of a refusal.
    pub fn number(self) -> u16
        ensures { result ≡ fault_number self.why }
    {
        match self.why {
            LineFault::Form(_) => 15,
            LineFault::Refused(refusal) => refusal.number(),
        }
    }

    // The part that answers it.
    pub fn layer(self) -> Layer
        ensures { result ≡ fault_layer self.why }
    {
        match self.why {
            LineFault::Form(_) => Layer::Listing,
            LineFault::Refused(Refusal::Declined(_)) => Layer::Tape,
            LineFault::Refused(_) => Layer::Recorder,
        }
    }

    // The column in the line, from 1.
    pub fn column(self) -> usize
        ensures { result ≡ fault_column self.why }
    {
        match self.why {
            LineFault::Form(FormFault { column }) => column,
            LineFault::Refused(_) => 1,
        }
    }
}

// `fault NUMBER LAYER LINE COLUMN`
impl fmt::Display for Fault {
    ghost output = { λ fault. Some (fault_text fault) };

    fn fmt<W: fmt::Write>(&self, f: &mut fmt::Formatter<W>) -> fmt::Result {
        let number = self.number();
        let layer = self.layer();
        let line = self.line;
        let column = self.column();
        write!(f, "fault {number} {layer} {line} {column}")
    }
}

impl WriteFault {
    // The number of the question that answers no. By a match, as that of a refusal.
    pub fn number(self) -> u16
        ensures { result ≡ write_number self }
    {
        match self {
            WriteFault::NotFit(_) => 11,
            WriteFault::TooShort => 16,
        }
    }
}
