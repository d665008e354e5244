// The text of a front.
ghost use Rattle.std.specs.Prelude.{◌≡◌, ◌++◌, [], ◌∷◌, codes, flat_map, IfOk, OnOk};
ghost use Rattle.outside_io.specs.Fields.{line_text};
ghost use Rattle.outside_io.specs.Criteria.{criterion_word as word_of};
ghost use Rattle.run_draw_front.specs.FrontText.{end_word, pair_line, front_text};

use outside_io::{criterion_word, push_field, push_number_field, push_text};
use plan_core::{Criterion, OutOfMemory};
use std::alloc::Global;
use trade_off::{FrontEnd, PairList};

fn end_word(ending: FrontEnd) -> &'static str
    ensures { result.now ≡ end_word ending }
{
    match ending {
        FrontEnd::Whole => "whole",
        FrontEnd::Empty => "none",
        FrontEnd::Conflicts => "conflicts",
        FrontEnd::Room => "room",
    }
}

/// Appends the line of the two criteria.
fn push_criteria(a: Criterion, b: Criterion, into: &mut Vec<u8>) -> Result<(), OutOfMemory>
    ensures { OnOk result (into.new.items
        ≡ into.old.items ++ line_text (codes "front") (word_of a ∷ word_of b ∷ [])) }
{
    push_text(into, b"front")?;
    push_field(into, criterion_word(a).as_bytes())?;
    push_field(into, criterion_word(b).as_bytes())?;
    push_text(into, b"\n")
}

fn push_pair(pair: &(u32, u32), into: &mut Vec<u8>) -> Result<(), OutOfMemory>
    ensures { OnOk result (into.new.items ≡ into.old.items ++ pair_line pair.now) }
{
    push_text(into, b"pair")?;
    push_number_field(into, pair.0)?;
    push_number_field(into, pair.1)?;
    push_text(into, b"\n")
}

fn push_pairs(pairs: &PairList, into: &mut Vec<u8>) -> Result<(), OutOfMemory>
    ensures { OnOk result (into.new.items ≡ into.old.items ++ flat_map pair_line pairs.now) }
{
    for i in 0..pairs.len() {
        push_pair(pairs.get(i), into)?;
    }
    Ok(())
}

/// Appends the line of how the search ended.
fn push_end(ending: FrontEnd, into: &mut Vec<u8>) -> Result<(), OutOfMemory>
    ensures { OnOk result (into.new.items ≡ into.old.items ++ line_text (codes "end") (end_word ending ∷ [])) }
{
    push_text(into, b"end")?;
    push_field(into, end_word(ending).as_bytes())?;
    push_text(into, b"\n")
}

/// The text of the front of two criteria, with these pairs and this end.
pub(crate) fn text_of(
    alloc: Global,
    a: Criterion,
    b: Criterion,
    pairs: &PairList,
    ending: FrontEnd,
) -> Result<Vec<u8>, OutOfMemory>
    ensures { IfOk result (λ text. text.items ≡ front_text a b pairs.now ending) }
{
    let mut text = Vec::from_slice(alloc, b"railplan-front 1\n")?;
    push_criteria(a, b, &mut text)?;
    push_pairs(pairs, &mut text)?;
    push_end(ending, &mut text)?;
    Ok(text)
}
