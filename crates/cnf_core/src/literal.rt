// Variables, literals, and literals with truth values among them.
ghost use Rattle.std.specs.Prelude.{◌≡◌, ◌≤◌, ◌<◌, ◌^◌};
ghost use Rattle.cnf_core.specs.Lit.{literal, literal_at, negate, word_of, IsWord};

use crate::LAST_VAR;
use std::marker::Model;

/// A variable's number, counted from 1.
#[derive(Clone, Copy, Debug, PartialEq, Eq)]
pub struct Var(pub u32);

/// A variable with a sign. It is kept in one word: twice the variable's number, and one more where
/// the literal is negative. A contract sees the variable and the sign.
#[derive(Clone, Copy, Debug, PartialEq, Eq)]
pub struct Lit {
    word: u32,
}

impl Model for Lit {
    ghost use Rattle.cnf_core.specs.Lit.{Literal, literal_at, word_of, IsWord};

    ghost Value = { Literal };

    ghost view = { λ l. literal_at l.word };

    ghost invariant = { λ l. IsWord l.word };

    ghost inverse = { λ v. record { word = word_of v } };
}

impl Lit {
    /// The literal of this variable, positive or negative.
    pub fn new(v: Var, positive: bool) -> Lit
        requires from { 1 ≤ v.0 }
        requires to { v.0 ≤ LAST_VAR }
        ensures { result ≡ literal v.0 positive }
    {
        Lit {
            word: if positive { 2 * v.0 } else { 2 * v.0 + 1 },
        }
    }

    /// The literal's variable.
    pub fn var(&self) -> Var
        ensures value { result.0 ≡ self.now.var }
        ensures from { 1 ≤ result.0 }
        ensures to { result.0 ≤ LAST_VAR }
    {
        Var(self.word / 2)
    }

    /// Whether the literal is its variable and not the negation.
    pub fn positive(&self) -> bool
        ensures { result ≡ self.now.positive }
    {
        self.word % 2 == 0
    }

    /// The same variable with the other sign.
    pub fn negated(&self) -> Lit
        ensures { result ≡ negate self.now }
    {
        Lit {
            word: self.word ^ 1,
        }
    }

    /// The literal's one word, by which tables of literals are indexed: twice the variable's
    /// number, and one more where the literal is negative.
    pub fn word(&self) -> u32
        ensures value { result ≡ word_of self.now }
        ensures is_word { IsWord result }
    {
        self.word
    }

    /// The literal of a word.
    pub fn from_word(word: u32) -> Lit
        requires { IsWord word }
        ensures value { result ≡ literal_at word }
        ensures word { word_of result ≡ word }
    {
        Lit { word }
    }
}

/// A literal, or a truth value in its place.
#[derive(Clone, Copy, Debug, PartialEq, Eq)]
pub enum LitOrTruth {
    /// A literal.
    Lit(Lit),
    /// True in every assignment.
    True,
    /// False in every assignment.
    False,
}

impl LitOrTruth {
    ghost use Rattle.cnf_core.specs.LitOrTruth.{flip};

    /// The negation.
    pub fn negated(&self) -> LitOrTruth
        ensures { result ≡ flip self.now }
    {
        match self {
            LitOrTruth::Lit(l) => LitOrTruth::Lit(l.negated()),
            LitOrTruth::True => LitOrTruth::False,
            LitOrTruth::False => LitOrTruth::True,
        }
    }
}
