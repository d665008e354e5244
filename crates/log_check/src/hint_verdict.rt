// What is answered to a hinted log.
ghost use Rattle.std.specs.Prelude.{◌≡◌};
ghost use Rattle.log_check.specs.HintRefused.{word_of};

use hint_log::HintsWhat;

/// Why a hinted line is refused.
#[derive(Clone, Copy, Debug, PartialEq, Eq)]
pub enum HintRefusal {
    /// Its hints don't show its clause.
    BadHint,
    /// There is no room for what is expected, or for the line's clause.
    Room,
}

impl HintRefusal {
    /// The refusal's word, as the line of a verdict has it.
    pub fn word(self) -> &'static str
        ensures { result.now ≡ word_of self }
    {
        match self {
            HintRefusal::BadHint => "BadHint",
            HintRefusal::Room => "Room",
        }
    }
}

/// Whether a hinted log certifies a claim, or what is first wrong with it. Lines are numbered from 1: the first line of
/// the text is line 1, and that of the caps line 2.
#[derive(Clone, Copy, Debug, PartialEq, Eq)]
pub enum HintsVerdict {
    /// Every line is accepted, and they certify the claim.
    Certified,
    /// Every line is accepted. This is the first place of the order, counted from 1, whose value they don't certify; or
    /// 0, where they don't certify that there is no drawing.
    Lacks {
        /// The place.
        place: u32,
    },
    /// This line is the first that is refused.
    Refused {
        /// Why it is refused.
        why: HintRefusal,
        /// Its number.
        line: u32,
    },
    /// The text of this line has a fault, and the lines before it are accepted.
    Faulty {
        /// The fault.
        what: HintsWhat,
        /// Its number.
        line: u32,
    },
}
