// What is kept while the items of a document go by.
ghost use Rattle.std.specs.Prelude.{◌≡◌, ◌<◌, ◌^◌, ◌+◌, ◌-◌, ◌++◌, ◌∷◌, ◌||◌, ◌==◌, [], length, take, fold, OnOk, IfOk};
ghost use Rattle.std.specs.Prelude.{true, false, ◌≢◌, ◌⊎◌, List};
ghost use Rattle.railml_text.specs.declared.item.Attr.{Attr as Attribute};
ghost use Rattle.railml_read.specs.Rows.{own_row, text_named as named_text, attrs_read};
ghost use Rattle.railml_read.specs.Tree.{opens};
ghost use Rattle.railml_read.specs.Places.{role_of, tags_at, begins_element};
ghost use Rattle.railml_read.specs.Progress.{top_frame, context_in, row_in, frame_in as frame_inside};
ghost use Rattle.railml_read.specs.Progress.{is_innermost as innermost_is, fault_in, names_in, is_infrastructure};
ghost use Rattle.railml_read.specs.Progress.{is_root_name as root_name, state_of, after_tag, marks_of, after_mark};
ghost use Rattle.railml_read.specs.Progress.{after_both};
ghost use Rattle.railml_read.specs.Signals.{own_track as track_here, own_signal};

use crate::contexts::{Context, below};
use crate::{Attrs, Elem, ElemKind, Records, SignalElem, SignalRows};
use plan_core::{OutOfMemory, Text};
use railml_text::{Attr, ItemKind, TextWhat};
use std::alloc::Global;

/// The greatest depth of an element, that of the root being 1.
pub(crate) const MAX_DEPTH: usize = 64;

/// An open element: its name, where it is, and the number of the nearest row at or above it.
#[derive(Drop)]
pub(crate) struct Frame {
    pub(crate) name: Text,
    pub(crate) context: Context,
    pub(crate) row: Option<u32>,
}

/// The open elements, the outermost first; the rows and the signals so far; and how many tracks have begun. It says
/// too whether the root and an `infrastructure` of the path have begun.
#[derive(Drop)]
pub(crate) struct Progress {
    pub(crate) stack: Vec<Frame>,
    pub(crate) rows: Vec<Elem>,
    pub(crate) signals: Vec<SignalElem>,
    pub(crate) tracks: u32,
    pub(crate) has_root: bool,
    pub(crate) has_infrastructure: bool,
}

fn is_root_name(name: &str) -> bool
    ensures { result ≡ root_name name.now }
{
    name == "railml" || name == "infrastructure"
}

/// Where the innermost open element is, and the nearest row at or above it.
fn innermost(stack: &[Frame]) -> (Context, Option<u32>)
    ensures context { result.0 ≡ context_in (top_frame stack.now) }
    ensures row { result.1 ≡ row_in (top_frame stack.now) }
{
    match stack {
        [] => (Context::Outside, None),
        [.., frame] => (frame.context, frame.row),
    }
}

/// A copy of the text of the attribute of this name, if there is one.
fn text_named(alloc: Global, attrs: &[Attr], name: &str) -> Result<Option<Text>, OutOfMemory>
    ensures { IfOk result (λ text. text ≡ named_text name.now attrs.now) }
{
    for attr in attrs {
        if attr.name.as_str() == name {
            return Ok(Some(attr.value.copied(alloc)?));
        }
    }
    Ok(None)
}

/// Puts the text of an attribute where those of its name are kept, in place of one that is there.
fn keep_text(read: &mut Attrs, attr: Attr)
    ensures { (attrs : List Attribute) → read.old ≡ attrs_read attrs → read.new ≡ attrs_read (attr ∷ attrs) }
{
    let Attr { name, value } = attr;
    match name.as_str() {
        "id" => read.id = Some(value),
        "pos" => read.pos = Some(value),
        "absPos" => read.abs_pos = Some(value),
        "ref" => read.reference = Some(value),
        "course" => read.course = Some(value),
        "orientation" => read.orientation = Some(value),
        "trackContinueCourse" => read.continue_course = Some(value),
        _ => {}
    }
}

/// The attributes that a row has, with their texts themselves. The last is taken first, since the first of a name
/// counts.
fn read_attrs(attrs: Vec<Attr>) -> Attrs
    ensures { result ≡ attrs_read attrs.items }
{
    let mut left = attrs;
    let mut read = Attrs {
        id: None,
        pos: None,
        abs_pos: None,
        reference: None,
        course: None,
        orientation: None,
        continue_course: None,
    };
    while let Some(attr) = left.pop() {
        keep_text(&mut read, attr);
    }
    read
}

/// The frame of an element that opens inside these, whose own row would have this number.
fn frame_in(stack: &[Frame], name: Text, number: u32) -> Frame
    ensures { result ≡ frame_inside stack.now name number }
{
    let (context, parent) = innermost(stack);
    let context = below(context, name.as_str());
    let row = match context {
        Context::Selected(_) => Some(number),
        _ => parent,
    };
    Frame { name, context, row }
}

/// 1 for an element that is here, if it is a track.
fn own_track(context: Context) -> u32
    ensures { result ≡ track_here context }
{
    match context {
        Context::Selected(ElemKind::Track) => 1,
        _ => 0,
    }
}

impl Progress {
    /// Nothing has been read.
    pub(crate) fn new(alloc: Global) -> Self
        ensures stack { result.stack.items ≡ [] }
        ensures rows { result.rows.items ≡ [] }
        ensures signals { result.signals.items ≡ [] }
        ensures tracks { result.tracks ≡ 0 }
        ensures root { result.has_root ≡ false }
        ensures infrastructure { result.has_infrastructure ≡ false }
    {
        Progress {
            stack: Vec::new(alloc),
            rows: Vec::new(alloc),
            signals: Vec::new(alloc),
            tracks: 0,
            has_root: false,
            has_infrastructure: false,
        }
    }

    /// Whether an element of this name is the innermost one that is open.
    fn is_innermost(&self, name: &Text) -> bool
        ensures { result ≡ innermost_is name.now (names_in self.now.stack.items) }
    {
        match self.stack.as_slice() {
            [] => false,
            [.., frame] => frame.name.as_str() == name.as_str(),
        }
    }

    /// The fault that its place gives to the next item, if any.
    pub(crate) fn fault_of(&self, kind: &ItemKind) -> Option<TextWhat>
        ensures { result ≡ fault_in (names_in self.now.stack.items) self.now.has_root (role_of kind.now) }
    {
        match kind {
            ItemKind::Start { name, .. } => {
                if !self.has_root && !is_root_name(name.as_str()) {
                    Some(TextWhat::Root)
                } else if self.has_root && self.stack.is_empty() {
                    Some(TextWhat::AfterRoot)
                } else if self.stack.len() >= MAX_DEPTH {
                    Some(TextWhat::Depth)
                } else {
                    None
                }
            }
            ItemKind::EndTag { name } => {
                if self.is_innermost(name) {
                    None
                } else {
                    Some(TextWhat::EndTag)
                }
            }
            ItemKind::Cdata | ItemKind::Reference | ItemKind::Chars { blank: false } => {
                if !self.has_root {
                    Some(TextWhat::Markup)
                } else if self.stack.is_empty() {
                    Some(TextWhat::AfterRoot)
                } else {
                    None
                }
            }
            _ => None,
        }
    }

    /// Adds the row of an element that is here, if it is selected.
    fn add_row(
        &mut self,
        at: usize,
        attrs: Vec<Attr>,
        context: Context,
        parent: Option<u32>,
    ) -> Result<(), OutOfMemory>
        ensures rows { OnOk result (self.new.rows.items ≡ self.old.rows.items
            ++ own_row context at attrs.items parent) }
        ensures others { self.new ≡ record self.old { rows = self.new.rows } }
    {
        if let Context::Selected(kind) = context {
            let attrs = read_attrs(attrs);
            self.rows.push(Elem {
                kind,
                at,
                parent,
                attrs,
            })?;
        }
        Ok(())
    }

    /// Adds the signal that an element is, if it is where signals are.
    fn add_signal(
        &mut self,
        alloc: Global,
        at: usize,
        attrs: &[Attr],
        context: Context,
    ) -> Result<(), OutOfMemory>
        ensures signals { OnOk result (self.new.signals.items ≡ self.old.signals.items
            ++ own_signal context at attrs.now self.old.tracks) }
        ensures others { self.new ≡ record self.old { signals = self.new.signals } }
    {
        if context == Context::Signal {
            self.signals.push(SignalElem {
                at,
                track: self.tracks.saturating_sub(1),
                id: text_named(alloc, attrs, "id")?,
                pos: text_named(alloc, attrs, "pos")?,
                abs_pos: text_named(alloc, attrs, "absPos")?,
            })?;
        }
        Ok(())
    }

    /// An element begins.
    fn enter(
        &mut self,
        alloc: Global,
        at: usize,
        name: Text,
        attrs: Vec<Attr>,
    ) -> Result<(), OutOfMemory>
        requires rows { length self.old.rows.items < 2 ^ 32 }
        requires tracks { self.old.tracks + 1 < 2 ^ 32 }
        ensures state { OnOk result (state_of self.new ≡ after_tag (state_of self.old) (opens at name attrs.items)) }
        ensures marks { OnOk result (marks_of self.new ≡ after_mark (state_of self.old) (marks_of self.old)
            (opens at name attrs.items)) }
        ensures root { OnOk result (self.new.has_root ≡ true) }
    {
        let (_, parent) = innermost(&self.stack);
        let frame = frame_in(&self.stack, name, self.rows.len() as u32);
        let context = frame.context;
        self.tracks += own_track(context);
        self.add_signal(alloc, at, &attrs, context)?;
        self.add_row(at, attrs, context, parent)?;
        self.stack.push(frame)?;
        self.has_root = true;
        self.has_infrastructure = self.has_infrastructure || context == Context::Infrastructure;
        Ok(())
    }

    /// The innermost element ends.
    fn leave(&mut self)
        ensures stack { self.new.stack.items ≡ take (length self.old.stack.items - 1) self.old.stack.items }
        ensures others { self.new ≡ record self.old { stack = self.new.stack } }
    {
        let _ = self.stack.pop();
    }

    /// Takes the tags of an item into account.
    pub(crate) fn add(
        &mut self,
        alloc: Global,
        at: usize,
        kind: ItemKind,
    ) -> Result<(), OutOfMemory>
        requires rows { length self.old.rows.items < 2 ^ 32 }
        requires tracks { self.old.tracks + 1 < 2 ^ 32 }
        ensures state { OnOk result (state_of self.new ≡ fold after_tag (state_of self.old) (tags_at at kind)) }
        ensures marks { OnOk result (marks_of self.new ≡ (fold after_both (state_of self.old, marks_of self.old)
            (tags_at at kind)).1) }
        ensures root { OnOk result (self.new.has_root ≡ (self.old.has_root || begins_element kind)) }
    {
        match kind {
            ItemKind::Start { name, attrs, empty } => {
                self.enter(alloc, at, name, attrs.into_vec())?;
                if empty {
                    self.leave();
                }
                Ok(())
            }
            ItemKind::EndTag { name: _name } => {
                self.leave();
                Ok(())
            }
            _other => Ok(()),
        }
    }

    /// Whether the root has begun and ended.
    pub(crate) fn is_closed(&self) -> bool
        ensures yes { result ≡ true → (self.now.has_root ≡ true) × (self.now.stack.items ≡ []) }
        ensures no { result ≡ false → (self.now.has_root ≡ false) ⊎ (self.now.stack.items ≢ []) }
    {
        self.has_root && self.stack.is_empty()
    }

    pub(crate) fn into_rows(self) -> Records
        ensures { result ≡ self.rows.items }
    {
        Records::from_vec(self.rows)
    }

    pub(crate) fn into_signals(self) -> SignalRows
        ensures { result ≡ self.signals.items }
    {
        SignalRows::from_vec(self.signals)
    }
}
