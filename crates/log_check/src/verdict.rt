// What is answered to a log.
ghost use Rattle.std.specs.Prelude.{◌≡◌};
ghost use Rattle.log_check.specs.Refused.{word_of};

use refute_log::LogWhat;

/// Why a line of a log is refused. Where several causes hold, the first of these is answered: no room for what is
/// expected, `Differs`, `NewVar`, `WrongQuery`, no room for the line's clause, `NotImplied`, `NotNew`.
#[derive(Clone, Copy, Debug, PartialEq, Eq)]
pub enum Refusal {
    /// There is no room for what is expected of the log, or for the line's clause.
    Room,
    /// The Formula or Bound line isn't the next of those that are expected.
    Differs,
    /// The line names a variable that is greater than all in the Formula lines before it.
    NewVar,
    /// The Refuted line has a literal that isn't the negation of one of the latest query, or there is no query before
    /// it.
    WrongQuery,
    /// The clause doesn't follow by unit propagation from those before it.
    NotImplied,
    /// The learnt clause says nothing new.
    NotNew,
}

impl Refusal {
    /// The refusal's word, as the line of a verdict has it.
    pub fn word(self) -> &'static str
        ensures { result.now ≡ word_of self }
    {
        match self {
            Refusal::Room => "Room",
            Refusal::Differs => "Differs",
            Refusal::NewVar => "NewVar",
            Refusal::WrongQuery => "WrongQuery",
            Refusal::NotImplied => "NotImplied",
            Refusal::NotNew => "NotNew",
        }
    }
}

/// Whether a log certifies a claim, or what is first wrong with it. Lines are numbered from 1, and the first line of
/// the text, which every log has, is line 1.
#[derive(Clone, Copy, Debug, PartialEq, Eq)]
pub enum Verdict {
    /// Every line is accepted, and they certify the claim.
    Certified,
    /// Every line is accepted. This is the first place of the order, counted from 1, whose value they don't certify; or
    /// 0, where they don't certify that there is no drawing.
    Lacks {
        /// The place.
        place: u32,
    },
    /// This line is the first that is refused.
    Refused {
        /// Why it is refused.
        why: Refusal,
        /// Its number.
        line: u32,
    },
    /// The text of this line has a fault, and the lines before it are accepted.
    Faulty {
        /// The fault.
        what: LogWhat,
        /// Its number.
        line: u32,
    },
}
