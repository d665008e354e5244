// Where an element stands on the path to the elements that are selected.
ghost use Rattle.std.specs.Prelude.{◌≡◌};
ghost use Rattle.railml_read.specs.Contexts.{below as context_below, below_end as context_below_end};
ghost use Rattle.railml_read.specs.Contexts.{below_selected as context_below_selected};

use crate::ElemKind;

/// Where an element is. It is outside of the root, at the root `railml`, or at an element of the paths that gives no
/// row. It is at a signal, at an element that gives a row, or off the paths, where everything is skipped.
#[derive(Clone, Copy, Debug, PartialEq, Eq)]
pub(crate) enum Context {
    Outside,
    Railml,
    Infrastructure,
    Tracks,
    Connections,
    OcsElements,
    Signals,
    Signal,
    Selected(ElemKind),
    Skipped,
}

/// Where a child of this name is below a track's begin or end.
fn below_end(name: &str) -> Context
    ensures { result ≡ context_below_end name.now }
{
    match name {
        "connection" => Context::Selected(ElemKind::Connection),
        "openEnd" => Context::Selected(ElemKind::OpenEnd),
        "bufferStop" => Context::Selected(ElemKind::BufferStop),
        "macroscopicNode" => Context::Selected(ElemKind::MacroNode),
        _ => Context::Skipped,
    }
}

/// Where a child of this name is below a selected element.
fn below_selected(kind: ElemKind, name: &str) -> Context
    ensures { result ≡ context_below_selected kind name.now }
{
    match (kind, name) {
        (ElemKind::Track, "trackTopology") => Context::Selected(ElemKind::Topology),
        (ElemKind::Track, "ocsElements") => Context::OcsElements,
        (ElemKind::Topology, "trackBegin") => Context::Selected(ElemKind::Begin),
        (ElemKind::Topology, "trackEnd") => Context::Selected(ElemKind::End),
        (ElemKind::Topology, "connections") => Context::Connections,
        (ElemKind::Begin | ElemKind::End, _) => below_end(name),
        (ElemKind::Switch | ElemKind::Crossing, "connection") => {
            Context::Selected(ElemKind::Connection)
        }
        _ => Context::Skipped,
    }
}

/// Where an element of this name is whose parent is here.
pub(crate) fn below(context: Context, name: &str) -> Context
    ensures { result ≡ context_below context name.now }
{
    match context {
        Context::Outside if name == "railml" => Context::Railml,
        Context::Outside if name == "infrastructure" => Context::Infrastructure,
        Context::Railml if name == "infrastructure" => Context::Infrastructure,
        Context::Infrastructure if name == "tracks" => Context::Tracks,
        Context::Tracks if name == "track" => Context::Selected(ElemKind::Track),
        Context::Connections if name == "switch" => Context::Selected(ElemKind::Switch),
        Context::Connections if name == "crossing" => Context::Selected(ElemKind::Crossing),
        Context::OcsElements if name == "signals" => Context::Signals,
        Context::Signals if name == "signal" => Context::Signal,
        Context::Selected(kind) => below_selected(kind, name),
        _ => Context::Skipped,
    }
}
