// The rows that a document's selected elements give.
use plan_core::{Items, Text};

/// The elements that are selected, by what each is.
#[derive(Clone, Copy, Debug, PartialEq, Eq)]
pub enum ElemKind {
    Track,
    Topology,
    Begin,
    End,
    Switch,
    Crossing,
    Connection,
    OpenEnd,
    BufferStop,
    MacroNode,
}

/// The texts of an element's attributes that are read, each where the element has it: `id`, `pos`, `absPos`, `ref`,
/// `course`, `orientation` and `trackContinueCourse`.
#[derive(Drop)]
pub struct Attrs {
    pub id: Option<Text>,
    pub pos: Option<Text>,
    pub abs_pos: Option<Text>,
    pub reference: Option<Text>,
    pub course: Option<Text>,
    pub orientation: Option<Text>,
    pub continue_course: Option<Text>,
}

/// A selected element. `at` is the byte of its start tag's `<`, and `parent` the number, from 0, of
/// the nearest selected element that holds it.
#[derive(Drop)]
pub struct Elem {
    pub kind: ElemKind,
    pub at: usize,
    pub parent: Option<u32>,
    pub attrs: Attrs,
}

/// Selected elements in file order.
pub type Records = Items<Elem>;

/// A signal. `at` is the byte of its start tag's `<`, `track` the number of its track, from 0 in file order. The
/// texts are those of its attributes `id`, `pos` and `absPos`, each where the signal has it.
#[derive(Drop)]
pub struct SignalElem {
    pub at: usize,
    pub track: u32,
    pub id: Option<Text>,
    pub pos: Option<Text>,
    pub abs_pos: Option<Text>,
}

/// Signals in file order.
pub type SignalRows = Items<SignalElem>;
