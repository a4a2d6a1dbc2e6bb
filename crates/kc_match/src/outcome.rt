// What comes of a fact.
ghost use Rattle.std.specs.Prelude.{◌≡◌};

/// What a file tells in place of what is stated.
#[derive(Clone, Copy, Debug, PartialEq, Eq)]
pub enum Other {
    /// The map: an address at run time.
    Map(u64),
    /// The types: a number of bytes.
    Btf(u64),
}

/// What comes of a fact, beside what the files tell.
#[derive(Clone, Copy, Debug, PartialEq, Eq)]
pub enum Outcome {
    /// They tell the same.
    Same,
    /// They don't tell the same, but another number. Where they tell several, it is the first.
    Differs(Other),
    /// They don't tell it.
    Unknown,
}

impl Outcome {
    ghost use Rattle.kc_match.specs.Outcomes.{differs, either, is_same, is_unknown};

    /// The files tell the same.
    pub fn is_same(&self) -> bool
        ensures { result ≡ is_same self.now }
    {
        matches!(self, Outcome::Same)
    }

    /// The files tell another number, and not the same.
    pub fn differs(&self) -> bool
        ensures { result ≡ differs self.now }
    {
        matches!(self, Outcome::Differs(_))
    }

    /// The files don't tell it.
    pub fn is_unknown(&self) -> bool
        ensures { result ≡ is_unknown self.now }
    {
        matches!(self, Outcome::Unknown)
    }

    /// What comes of a fact beside what two types tell: the same where one of them tells the same, and else the first that
    /// tells another number.
    pub fn or(self, other: Outcome) -> Outcome
        ensures { result ≡ either self other }
    {
        match self {
            Outcome::Same => Outcome::Same,
            Outcome::Differs(_) if other.is_same() => Outcome::Same,
            Outcome::Differs(told) => Outcome::Differs(told),
            Outcome::Unknown => other,
        }
    }
}
