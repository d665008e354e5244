// Courses and orientations of the connections of switches and crossings.
ghost use Rattle.std.specs.Prelude.{IsTrue, ◌↔◌};
ghost use Rattle.railml_faults.specs.Faults.{IsHand, IsWay, IsCourseAt, HasBadSwitchCourse, HasBadCrossingCourse};
ghost use Rattle.railml_faults.specs.Faults.{HasBadCourse, HasBadOrientation};
ghost use Rattle.plan_core.specs.Searching.{FindsFirst};

use crate::rows::{is_word, parent_of};
use railml_read::{Elem, ElemKind};

/// Whether a word is a hand.
fn is_hand(word: &str) -> bool
    ensures { IsTrue result ↔ IsHand word.now }
{
    word == "left" || word == "right"
}

/// Whether a word is an orientation.
fn is_way(word: &str) -> bool
    ensures { IsTrue result ↔ IsWay word.now }
{
    word == "incoming" || word == "outgoing"
}

/// Whether a word is a course at this switch.
fn is_course_at(switch: &Elem, word: &str) -> bool
    ensures { IsTrue result ↔ IsCourseAt switch.now word.now }
{
    if is_hand(word) {
        return true;
    }
    match &switch.attrs.continue_course {
        Some(hand) => word == "straight" && is_hand(hand.as_str()),
        None => false,
    }
}

/// Whether a row is the connection of a switch, and its course is none.
fn has_bad_switch_course(rows: &[Elem], row: &Elem) -> bool
    ensures { IsTrue result ↔ HasBadSwitchCourse rows.now row.now }
{
    match (row.kind, parent_of(rows, row), &row.attrs.course) {
        (ElemKind::Connection, Some(parent), Some(word)) => {
            parent.kind == ElemKind::Switch && !is_course_at(parent, word.as_str())
        }
        _ => false,
    }
}

/// Whether a row is a crossing's outgoing connection, and its course is no hand.
fn has_bad_crossing_course(rows: &[Elem], row: &Elem) -> bool
    ensures { IsTrue result ↔ HasBadCrossingCourse rows.now row.now }
{
    match (row.kind, parent_of(rows, row), &row.attrs.course) {
        (ElemKind::Connection, Some(parent), Some(word)) => {
            parent.kind == ElemKind::Crossing
                && is_word(&row.attrs.orientation, "outgoing")
                && !is_hand(word.as_str())
        }
        _ => false,
    }
}

/// Whether a row is a connection whose course is none.
fn has_bad_course(rows: &[Elem], row: &Elem) -> bool
    ensures { IsTrue result ↔ HasBadCourse rows.now row.now }
{
    has_bad_switch_course(rows, row) || has_bad_crossing_course(rows, row)
}

/// Whether a row is a switch's or a crossing's connection, and its orientation is none.
fn has_bad_orientation(rows: &[Elem], row: &Elem) -> bool
    ensures { IsTrue result ↔ HasBadOrientation rows.now row.now }
{
    match (row.kind, parent_of(rows, row), &row.attrs.orientation) {
        (ElemKind::Connection, Some(parent), Some(word)) => {
            (parent.kind == ElemKind::Switch || parent.kind == ElemKind::Crossing)
                && !is_way(word.as_str())
        }
        _ => false,
    }
}

/// The first connection whose course is none.
pub(crate) fn first_bad_course(rows: &[Elem]) -> Option<usize>
    ensures { FindsFirst (λ _ row. HasBadCourse rows.now row) rows.now result }
{
    for (i, row) in rows.iter().enumerate() {
        if has_bad_course(rows, row) {
            return Some(i);
        }
    }
    None
}

/// The first connection whose orientation is none.
pub(crate) fn first_bad_orientation(rows: &[Elem]) -> Option<usize>
    ensures { FindsFirst (λ _ row. HasBadOrientation rows.now row) rows.now result }
{
    for (i, row) in rows.iter().enumerate() {
        if has_bad_orientation(rows, row) {
            return Some(i);
        }
    }
    None
}
