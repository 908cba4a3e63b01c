// Why a visitor gives no answer.
ghost use Rattle.std.specs.Prelude.{◌≡◌};
ghost use Rattle.walk.specs.Faults.{reason_of};

use values::refusals::Reason;

#[derive(Clone, Copy, PartialEq, Eq)]
pub enum Fault {
    // a row's refusals, as themselves
    PlacePastGroup,
    NoGroup,
    NoValue,
    OutsideRow,
    // it meets a Not
    NotMet,
    // a number of the visitor's own
    Own(u32),
}

impl Fault {
    // The reason that it is refused for.
    pub fn reason(self) -> Reason
        ensures is_the_faults { result ≡ reason_of self }
    {
        match self {
            Fault::PlacePastGroup => Reason::PlacePastGroup,
            Fault::NoGroup => Reason::NoGroup,
            Fault::NoValue => Reason::NoValue,
            Fault::OutsideRow => Reason::OutsideRow,
            Fault::NotMet => Reason::NotMet,
            Fault::Own(fault) => Reason::VisitorFault { fault },
        }
    }
}
