// The words of the criteria.
ghost use Rattle.std.specs.Prelude.{◌≡◌, ◌≢◌, MatchOption};
ghost use Rattle.plan_core.specs.declared.criterion.Criterion.{Criterion as Measure};
ghost use Rattle.outside_io.specs.Criteria.{criterion_word as word_of};

use plan_core::Criterion;

/// The criterion's word, as orders, sheets and logs name it.
pub fn criterion_word(criterion: Criterion) -> &'static str
    ensures { result.now ≡ word_of criterion }
{
    match criterion {
        Criterion::Height => "height",
        Criterion::Bends => "bends",
        Criterion::Diagonal => "diagonal",
        Criterion::Width => "width",
    }
}

/// The criterion that the word names, if it names one.
pub fn read_criterion(word: &[u8]) -> Option<Criterion>
    ensures { MatchOption result ((c : Measure) → word.now ≢ word_of c) (λ c. word.now ≡ word_of c) }
{
    match word {
        b"height" => Some(Criterion::Height),
        b"bends" => Some(Criterion::Bends),
        b"diagonal" => Some(Criterion::Diagonal),
        b"width" => Some(Criterion::Width),
        _ => None,
    }
}
