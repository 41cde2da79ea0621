// The faults of reading and of writing a listing.
ghost use Rattle.std.specs.Prelude.{◌≡◌};
ghost use Rattle.listing.specs.declared.fault.LineFault.TheVariants.{Form, Refused};

use events::Refusal;
use lines::FormFault;
use transactions::Unfit;

mod answers;

// The part that meets a fault.
#[derive(Clone, Copy, PartialEq, Eq, Debug)]
pub enum Layer {
    Listing,
    Recorder,
    Tape,
}

// Why a line is not recorded: it is none of the five forms, or its event is refused.
#[derive(Clone, Copy, PartialEq, Eq, Debug)]
pub enum LineFault {
    Form(FormFault),
    Refused(Refusal),
}

// By hand, since a derived `From` says nothing of what it makes; so for the next.
impl From<FormFault> for LineFault {
    ghost from_gives = { λ fault r. r ≡ Form fault };

    fn from(fault: FormFault) -> LineFault {
        LineFault::Form(fault)
    }
}

impl From<Refusal> for LineFault {
    ghost from_gives = { λ refusal r. r ≡ Refused refusal };

    fn from(refusal: Refusal) -> LineFault {
        LineFault::Refused(refusal)
    }
}

// The first fault of a text: its line, from 1, and why that line is not recorded.
#[derive(Clone, Copy, PartialEq, Eq, Debug)]
pub struct Fault {
    pub line: usize,
    pub why: LineFault,
}

// Why a history is not written: some event does not fit after those before it, or the text is too short.
#[derive(Clone, Copy, PartialEq, Eq, Debug)]
pub enum WriteFault {
    NotFit(Unfit),
    TooShort,
}
