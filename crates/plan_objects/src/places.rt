// The places of signals, their order along an edge, and how many stand on one.
ghost use Rattle.std.specs.Prelude.{◌≡◌, ◌<◌, ◌≤◌, length, if◌then◌else◌, count_by};
ghost use Rattle.std.specs.List.{range_with_len};
ghost use Rattle.plan_objects.specs.Places.{comes_before as is_before, number_on as how_many_on, rank as rank_of};
ghost use Rattle.plan_objects.specs.Places.{need_of, is_ahead as ahead, is_on as stands_on};
ghost use Rattle.plan_objects.specs.Faults.{earlier_on_edge};
ghost use Rattle.plan_core.specs.Searching.{FindsFirst};

use plan_core::{EdgeNo, Micro};

/// The most signals of a file.
pub const MAX_SIGNALS: usize = 512;

/// The most signals of one edge.
pub const SIGNALS_OF_AN_EDGE: u16 = 15;

/// Where a signal is along the railway: its edge, and its mileage.
#[derive(Clone, Copy, Debug, PartialEq, Eq)]
pub struct SignalPlace {
    pub edge: EdgeNo,
    pub mile: Micro,
}

/// Whether signal `i` comes before signal `j`: by mileage, and at one mileage by file order.
fn comes_before(signals: &[SignalPlace], i: usize, j: usize) -> bool
    requires first { i < length signals.now }
    requires second { j < length signals.now }
    ensures { result ≡ is_before signals.now i j }
{
    let (a, b) = (signals[i].mile.0, signals[j].mile.0);
    a < b || (a == b && i < j)
}

/// Whether signal `i` is on the edge of signal `j` and comes before it.
fn is_ahead(signals: &[SignalPlace], j: usize, i: usize) -> bool
    requires first { j < length signals.now }
    requires second { i < length signals.now }
    ensures { result ≡ ahead signals.now j i }
{
    signals[i].edge.0 == signals[j].edge.0 && comes_before(signals, i, j)
}

/// 1 where it holds, and 0 where it doesn't.
fn one_if(holds: bool) -> u16
    ensures { result ≡ (if holds then 1 else 0) }
{
    if holds { 1 } else { 0 }
}

/// How many of the first `n` signals are on an edge.
#[tactic(auto, using(crate::proofs::CountLemmas::counted_next, crate::proofs::CountLemmas::counted_most))]
fn number_among(signals: &[SignalPlace], n: usize, edge: EdgeNo) -> u16
    requires few { length signals.now ≤ MAX_SIGNALS }
    requires within { n ≤ length signals.now }
    ensures { result ≡ count_by (stands_on signals.now edge.0) (range_with_len 0 n) }
{
    let mut number = 0;
    for i in 0..n {
        number += one_if(signals[i].edge.0 == edge.0);
    }
    number
}

/// How many signals are on an edge.
pub(crate) fn number_on(signals: &[SignalPlace], edge: EdgeNo) -> u16
    requires { length signals.now ≤ MAX_SIGNALS }
    ensures { result ≡ how_many_on signals.now edge.0 }
{
    number_among(signals, signals.len(), edge)
}

/// The first signal before which, in file order, just as many are on its edge as may be.
pub(crate) fn first_crowded(signals: &[SignalPlace]) -> Option<usize>
    requires { length signals.now ≤ MAX_SIGNALS }
    ensures { FindsFirst (λ i _. earlier_on_edge signals.now i ≡ SIGNALS_OF_AN_EDGE) signals.now result }
{
    for i in 0..signals.len() {
        if number_among(signals, i, signals[i].edge) == SIGNALS_OF_AN_EDGE {
            return Some(i);
        }
    }
    None
}

/// How many signals of its edge come before signal `i`.
#[tactic(auto, using(crate::proofs::CountLemmas::counted_next, crate::proofs::CountLemmas::counted_most))]
pub(crate) fn rank(signals: &[SignalPlace], i: usize) -> u16
    requires few { length signals.now ≤ MAX_SIGNALS }
    requires there { i < length signals.now }
    ensures { result ≡ rank_of signals.now i }
{
    let mut rank = 0;
    for j in 0..signals.len() {
        rank += one_if(is_ahead(signals, i, j));
    }
    rank
}

/// 1 more than the greatest number of signals on one edge.
pub(crate) fn need(signals: &[SignalPlace]) -> u16
    requires { length signals.now ≤ MAX_SIGNALS }
    ensures { result ≡ need_of signals.now }
{
    let mut most = 0;
    for place in signals {
        most = number_on(signals, place.edge).max(most);
    }
    1 + most
}
