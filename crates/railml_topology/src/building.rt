// The tracks of a topology, from their rows.
ghost use Rattle.std.specs.Prelude.{◌≡◌, true, IfOk, Some, Bool, slice_get, All};
ghost use Rattle.std.specs.List.{AllZip};
ghost use Rattle.plan_core.specs.declared.sides.Hand.{Hand as Side};
ghost use Rattle.railml_read.specs.declared.rows.ElemKind.TheVariants.{Track as TrackRow, Switch as SwitchRow};
ghost use Rattle.railml_read.specs.declared.rows.ElemKind.TheVariants.{Crossing as CrossingRow};
ghost use Rattle.railml_faults.specs.Rows.{is_of_kind as of_kind};
ghost use Rattle.railml_faults.specs.Tables.{AreTablesOf};
ghost use Rattle.railml_topology.specs.Resolved.{hand_word, IsCourseOf, IsTrackEndOf, IsInnerKindOf, IsInnerOf};
ghost use Rattle.railml_topology.specs.Resolved.{IsLayout, IsTrackOf, IsTopologyOf};
ghost use Rattle.railml_topology.specs.Plans.{is_inner as passes_inner};
ghost use Rattle.railml_topology.specs.Sites.{IsReadySite, IsEither, IsStart};
ghost use Rattle.railml_topology.specs.Sound.{AreSoundRows};

use crate::layout::{Layout, layouts};
use crate::mileages::mileage_of;
use crate::places::{branch_of, places_of, way_of};
use crate::sites::{Site, conn_of, copied, joined_at, row_at};
use plan_core::{
    End, Hand, Inner, InnerKind, InnerList, OutOfMemory, Text, Topology, Track, TrackList,
};
use railml_faults::{Tables, is_of_kind, is_word};
use railml_read::{Elem, ElemKind};
use std::alloc::Global;

/// The begin or end of a row of a track with this begin.
fn end_of(alloc: Global, site: &Site<'_>, begin: &Elem, number: u32) -> Result<End, OutOfMemory>
    requires ready { IsReadySite site.now }
    requires start { IsStart begin.now }
    requires an_end { IsEither site.now.rows.now number }
    ensures { IfOk result (λ end. IsTrackEndOf site.now.rows.now site.now.layouts.now begin.now number end) }
{
    let row = row_at(site.rows, number);
    let mile = mileage_of(begin, row);
    let id = copied(alloc, &row.attrs.id)?;
    let joined = joined_at(alloc, site, number)?;
    Ok(End {
        id,
        at: row.at,
        mile,
        joined,
    })
}

/// The hand that a word names.
fn hand_of(word: &Option<Text>) -> Hand
    requires { (hand : Side) × (word.now ≡ Some (hand_word hand)) }
    ensures { word.now ≡ Some (hand_word result) }
{
    if is_word(word, "left") {
        Hand::Left
    } else {
        Hand::Right
    }
}

/// The hand to which the branch of a switch diverges, or to which its track does; and whether it is the
/// track.
fn course_of(switch: &Elem, branch: &Elem) -> (Hand, bool)
    requires { (hand : Side) × (diverges : Bool) × IsCourseOf switch.now branch.now hand diverges }
    ensures { IsCourseOf switch.now branch.now result.0 result.1 }
{
    if is_word(&branch.attrs.course, "straight") {
        (hand_of(&switch.attrs.continue_course), true)
    } else {
        (hand_of(&branch.attrs.course), false)
    }
}

/// What a switch connects.
fn switch_of(
    alloc: Global,
    site: &Site<'_>,
    number: u32,
    row: &Elem,
) -> Result<InnerKind, OutOfMemory>
    requires ready { IsReadySite site.now }
    requires a_switch { of_kind site.now.rows.now SwitchRow number ≡ true }
    requires at { slice_get site.now.rows.now number ≡ Some row.now }
    ensures { IfOk result (λ what. IsInnerKindOf site.now.rows.now site.now.layouts.now number row.now what) }
{
    let branch = branch_of(site.rows, site.tables, number);
    let connection = row_at(site.rows, branch);
    let (hand, track_diverges) = course_of(row, connection);
    let conn = conn_of(alloc, site, branch)?;
    Ok(InnerKind::Switch {
        outgoing: is_word(&connection.attrs.orientation, "outgoing"),
        hand,
        track_diverges,
        conn,
    })
}

/// What a crossing connects.
fn crossing_of(
    alloc: Global,
    site: &Site<'_>,
    number: u32,
    row: &Elem,
) -> Result<InnerKind, OutOfMemory>
    requires ready { IsReadySite site.now }
    requires a_crossing { of_kind site.now.rows.now CrossingRow number ≡ true }
    requires at { slice_get site.now.rows.now number ≡ Some row.now }
    ensures { IfOk result (λ what. IsInnerKindOf site.now.rows.now site.now.layouts.now number row.now what) }
{
    let coming = way_of(site.rows, site.tables, number, false);
    let leaving = way_of(site.rows, site.tables, number, true);
    let hand = hand_of(&row_at(site.rows, leaving).attrs.course);
    let incoming = conn_of(alloc, site, coming)?;
    let outgoing = conn_of(alloc, site, leaving)?;
    Ok(InnerKind::Crossing {
        hand,
        incoming,
        outgoing,
    })
}

/// What a switch or a crossing connects.
fn kind_of(
    alloc: Global,
    site: &Site<'_>,
    number: u32,
    row: &Elem,
) -> Result<InnerKind, OutOfMemory>
    requires ready { IsReadySite site.now }
    requires an_inner { passes_inner site.now.rows.now number ≡ true }
    requires at { slice_get site.now.rows.now number ≡ Some row.now }
    ensures { IfOk result (λ what. IsInnerKindOf site.now.rows.now site.now.layouts.now number row.now what) }
{
    if is_of_kind(site.rows, number, ElemKind::Switch) {
        switch_of(alloc, site, number, row)
    } else {
        crossing_of(alloc, site, number, row)
    }
}

/// The switch or the crossing of a row of a track with this begin.
fn inner_of(alloc: Global, site: &Site<'_>, begin: &Elem, number: u32) -> Result<Inner, OutOfMemory>
    requires ready { IsReadySite site.now }
    requires start { IsStart begin.now }
    requires an_inner { passes_inner site.now.rows.now number ≡ true }
    ensures { IfOk result (λ inner. IsInnerOf site.now.rows.now site.now.layouts.now begin.now number inner) }
{
    let row = row_at(site.rows, number);
    let mile = mileage_of(begin, row);
    let id = copied(alloc, &row.attrs.id)?;
    let what = kind_of(alloc, site, number, row)?;
    Ok(Inner {
        id,
        at: row.at,
        mile,
        what,
    })
}

/// The switches and crossings of rows of a track with this begin.
fn inner_list(
    alloc: Global,
    site: &Site<'_>,
    begin: &Elem,
    numbers: &[u32],
) -> Result<InnerList, OutOfMemory>
    requires ready { IsReadySite site.now }
    requires start { IsStart begin.now }
    requires all_inner { All (λ i. passes_inner site.now.rows.now i ≡ true) numbers.now }
    ensures { IfOk result
        (λ list. AllZip (IsInnerOf site.now.rows.now site.now.layouts.now begin.now) numbers.now list) }
{
    let mut list = InnerList::new(alloc);
    for number in numbers {
        list.push(inner_of(alloc, site, begin, *number)?)?;
    }
    Ok(list)
}

/// The track of these rows.
fn track_of(alloc: Global, site: &Site<'_>, layout: &Layout) -> Result<Track, OutOfMemory>
    requires ready { IsReadySite site.now }
    requires laid { IsLayout site.now.rows.now layout.now }
    requires a_track { of_kind site.now.rows.now TrackRow layout.now.track ≡ true }
    ensures { IfOk result (λ track. IsTrackOf site.now.rows.now site.now.layouts.now layout.now track) }
{
    let row = row_at(site.rows, layout.track);
    let begin = row_at(site.rows, layout.begin);
    let id = copied(alloc, &row.attrs.id)?;
    let first = end_of(alloc, site, begin, layout.begin)?;
    let last = end_of(alloc, site, begin, layout.end)?;
    let inner = inner_list(alloc, site, begin, layout.inner.as_slice())?;
    Ok(Track {
        id,
        at: row.at,
        begin: first,
        end: last,
        inner,
    })
}

/// The tracks of a topology.
fn tracks_of(alloc: Global, site: &Site<'_>) -> Result<TrackList, OutOfMemory>
    requires { IsReadySite site.now }
    ensures { IfOk result (λ tracks. AllZip (IsTrackOf site.now.rows.now site.now.layouts.now) site.now.layouts.now
        tracks) }
{
    let mut tracks = TrackList::new(alloc);
    for layout in site.layouts {
        tracks.push(track_of(alloc, site, layout)?)?;
    }
    Ok(tracks)
}

/// The topology of rows of which nothing is wrong.
pub(crate) fn topology_of(
    alloc: Global,
    rows: &[Elem],
    tables: &Tables,
) -> Result<Topology, OutOfMemory>
    requires sound { AreSoundRows rows.now }
    requires tables { AreTablesOf rows.now tables.now }
    ensures { IfOk result (λ t. IsTopologyOf rows.now t) }
{
    let layouts = layouts(alloc, rows, tables)?;
    let places = places_of(alloc, rows, tables, &layouts)?;
    let site = Site {
        rows,
        tables,
        layouts: &layouts,
        places: &places,
    };
    let tracks = tracks_of(alloc, &site)?;
    Ok(Topology { tracks })
}
