// What the program is asked to do.
ghost use Rattle.std.specs.Prelude.{◌≡◌, ◌≢◌, MatchOption};
ghost use Rattle.plan_words.specs.WordFaults.{command_word, name_count as count_of};

use plan_core::{Criterion, Grid, Order, Text};

/// A word that names a command.
#[derive(Clone, Copy, Debug, PartialEq, Eq)]
pub(crate) enum CommandWord {
    Draw,
    Verify,
    Check,
    Graph,
    Make,
    Trial,
    Signals,
    Front,
    Redraw,
    Explain,
    Trim,
    Recheck,
}

impl CommandWord {
    /// The command that the word names, if it names one.
    pub(crate) fn named(word: &str) -> Option<CommandWord>
        ensures { MatchOption result ((c : CommandWord) → word.now ≢ command_word c) (λ c. word.now ≡ command_word c) }
    {
        match word {
            "draw" => Some(CommandWord::Draw),
            "verify" => Some(CommandWord::Verify),
            "check" => Some(CommandWord::Check),
            "graph" => Some(CommandWord::Graph),
            "make" => Some(CommandWord::Make),
            "trial" => Some(CommandWord::Trial),
            "signals" => Some(CommandWord::Signals),
            "front" => Some(CommandWord::Front),
            "redraw" => Some(CommandWord::Redraw),
            "explain" => Some(CommandWord::Explain),
            "trim" => Some(CommandWord::Trim),
            "recheck" => Some(CommandWord::Recheck),
            _ => None,
        }
    }

    /// The number of names behind the command.
    pub(crate) fn name_count(self) -> usize
        ensures { result ≡ count_of self }
    {
        match self {
            CommandWord::Draw
            | CommandWord::Graph
            | CommandWord::Make
            | CommandWord::Trial
            | CommandWord::Signals
            | CommandWord::Explain => 1,
            CommandWord::Verify | CommandWord::Front => 2,
            CommandWord::Check | CommandWord::Redraw | CommandWord::Recheck => 3,
            CommandWord::Trim => 4,
        }
    }
}

/// What the program is asked to do. Each text is a file's name.
#[derive(Drop)]
pub enum Command {
    /// Draws the railML file `input` on the grid, best in the order. The budget says how many learnt clauses there
    /// may be at most. It writes a picture and a log where names are given for them.
    Draw {
        input: Text,
        grid: Grid,
        order: Order,
        budget: u32,
        svg: Option<Text>,
        log: Option<Text>,
    },
    /// Decides whether the drawing in `sheet` is lawful for `input`.
    Verify {
        input: Text,
        sheet: Text,
    },
    /// Decides whether `log` certifies what `sheet` claims of `input`.
    Check {
        input: Text,
        sheet: Text,
        log: Text,
    },
    /// Prints the track graph of `input`.
    Graph {
        input: Text,
    },
    /// Makes a station from a number.
    Make {
        n: u32,
    },
    /// Makes a station from a number and draws it, on the trial's own grid and in its order.
    Trial {
        n: u32,
    },
    /// Draws `input` as `Draw` does, and says where the signals are on the drawing. Each edge is as long at least as
    /// the most signals of one need. There is no picture, and the grid's least length is 1 until the signals are
    /// read.
    Signals {
        input: Text,
        grid: Grid,
        order: Order,
        budget: u32,
        log: Option<Text>,
    },
    /// Finds each pair of values of the two criteria that lawful drawings of `input` on the grid have, without those
    /// that another beats: less in one and not more in the other. The budget says how many learnt clauses there may
    /// be at most. The criteria differ.
    Front {
        input: Text,
        first: Criterion,
        second: Criterion,
        grid: Grid,
        budget: u32,
    },
    /// Draws `input` on the grid with as few nodes as can be at other points than in the drawing of `sheet`. That
    /// drawing is one of the railML file `former`. The budget says how many learnt clauses there may be at most. It
    /// writes a log where a name is given for it.
    Redraw {
        input: Text,
        former: Text,
        sheet: Text,
        grid: Grid,
        budget: u32,
        log: Option<Text>,
    },
    /// Finds laws that say why `input` has no lawful drawing on the grid, or a lawful drawing. The budget says how
    /// many learnt clauses there may be at most.
    Explain {
        input: Text,
        grid: Grid,
        budget: u32,
    },
    /// Decides as `Check` does. Where `log` certifies what `sheet` claims of `input`, it writes those of its lines
    /// that certify it, with their hints, into the file `hints`.
    Trim {
        input: Text,
        sheet: Text,
        log: Text,
        hints: Text,
    },
    /// Decides whether the hinted lines of `hints` certify what `sheet` claims of `input`.
    Recheck {
        input: Text,
        sheet: Text,
        hints: Text,
    },
}
