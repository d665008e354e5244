// Reading ahead: lists that were read a moment before are near when their literal's turn comes.
use crate::places::Places;
use cnf_core::Lit;

/// Of so many literals at once the lists are read, so that the memory is waited for once.
const GROUP: usize = 8;

/// The lists of the negation of the trail's literal at this place, if there is one.
fn lists_at<'a>(occurrences: &'a [Places], trail: &[Lit], at: usize) -> Option<&'a Places> {
    let l = trail.get(at)?;
    occurrences.get(l.negated().word() as usize)
}

/// Reads how long the lists at a place are.
fn read_lengths(occurrences: &[Places], trail: &[Lit], at: usize) -> usize {
    match lists_at(occurrences, trail, at) {
        Some(lists) => lists.shorts().len() ^ lists.counted().len(),
        None => 0,
    }
}

/// Reads how the list of counted clauses begins and ends.
fn read_counted(lists: &Places) -> usize {
    let counted = lists.counted();
    match counted.first() {
        Some(number) => match counted.last() {
            Some(other) => (*number ^ *other) as usize,
            None => 0,
        },
        None => 0,
    }
}

/// Reads how the list of short clauses begins and ends.
fn read_shorts(lists: &Places) -> usize {
    let shorts = lists.shorts();
    match shorts.first() {
        Some(rest) => match shorts.last() {
            Some(other) => (rest.first.word() ^ other.first.word()) as usize,
            None => 0,
        },
        None => 0,
    }
}

/// Reads how the lists at a place begin and end.
fn read_lists(occurrences: &[Places], trail: &[Lit], at: usize) -> usize {
    match lists_at(occurrences, trail, at) {
        Some(lists) => read_shorts(lists) ^ read_counted(lists),
        None => 0,
    }
}

/// Reads the lists that propagation comes to soon, behind the trail's literal at `front`, for a group of literals where
/// one begins. The answer says nothing; who keeps it makes sure that they are read.
pub(crate) fn read_behind(occurrences: &[Places], trail: &[Lit], front: usize) -> usize {
    if front % GROUP != 0 {
        return 0;
    }
    let mut found = 0;
    for k in 0..GROUP {
        found ^= read_lengths(occurrences, trail, front.saturating_add(2 * GROUP + k));
    }
    for k in 0..GROUP {
        found ^= read_lists(occurrences, trail, front.saturating_add(GROUP + k));
    }
    found
}
