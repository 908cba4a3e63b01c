// Answers of three.
ghost use Rattle.std.specs.Prelude.{◌≡◌};
ghost use Rattle.judges.specs.Verdicts.{sure, known, is_true, turned, both, either};

#[derive(Clone, Copy, PartialEq, Eq)]
pub enum Verdict {
    True,
    False,
    Unknown,
}

impl Verdict {
    pub(crate) fn sure(truth: bool) -> Verdict
        ensures is_true_or_false { result ≡ sure truth }
    {
        if truth { Verdict::True } else { Verdict::False }
    }

    // Unknown where there is no answer.
    pub(crate) fn known(truth: Option<bool>) -> Verdict
        ensures is_unknown_without { result ≡ known truth }
    {
        match truth {
            Some(truth) => Verdict::sure(truth),
            None => Verdict::Unknown,
        }
    }

    pub(crate) fn is_true(self) -> bool
        ensures tells_true_alone { result ≡ is_true self }
    {
        matches!(self, Verdict::True)
    }

    // False if a side is, true if both are, else unknown.
    pub(crate) fn and(self, other: Verdict) -> Verdict
        ensures is_both { result ≡ both self other }
    {
        match (self, other) {
            (Verdict::False, _) | (_, Verdict::False) => Verdict::False,
            (Verdict::True, Verdict::True) => Verdict::True,
            _ => Verdict::Unknown,
        }
    }

    // True if a side is, false if both are, else unknown.
    pub(crate) fn or(self, other: Verdict) -> Verdict
        ensures is_either { result ≡ either self other }
    {
        match (self, other) {
            (Verdict::True, _) | (_, Verdict::True) => Verdict::True,
            (Verdict::False, Verdict::False) => Verdict::False,
            _ => Verdict::Unknown,
        }
    }

    // Unknown stays, the other two are exchanged.
    pub(crate) fn not(self) -> Verdict
        ensures is_turned { result ≡ turned self }
    {
        match self {
            Verdict::True => Verdict::False,
            Verdict::False => Verdict::True,
            Verdict::Unknown => Verdict::Unknown,
        }
    }
}
