// What can be wrong with a document's text.
ghost use Rattle.std.specs.Prelude.{◌≡◌};
ghost use Rattle.railml_text.specs.Faults.{number_of, word_of};
ghost use Rattle.railml_text.specs.declared.fault.ItemFault.TheVariants.{Memory};

use plan_core::OutOfMemory;
use std::alloc::{AllocError, AllocFailed};
use thiserror::Error;

/// The faults of a document's text, in the order of their numbers from 1 to 12. Where an item has
/// several, the lowest number counts.
#[derive(Clone, Copy, Debug, PartialEq, Eq)]
pub enum TextWhat {
    /// The file isn't UTF-8.
    NotUtf8,
    /// The declaration names an encoding other than UTF-8.
    Encoding,
    /// A document type declaration.
    Doctype,
    /// A `<` that begins no item, or an item before the root that may not be there.
    Markup,
    /// An `&` that begins no reference.
    Entity,
    /// An end tag that doesn't close the innermost open element.
    EndTag,
    /// Two attributes of one name.
    RepeatedAttribute,
    /// The root is neither `railml` nor `infrastructure`.
    Root,
    /// The input ends within an item, or within an element, or has no root.
    Unfinished,
    /// An item after the root that may not be there.
    AfterRoot,
    /// Elements are nested too deep.
    Depth,
    /// The root `railml` has no child `infrastructure`.
    NoInfrastructure,
}

impl TextWhat {
    /// The fault's number, from 1 to 12.
    pub fn number(&self) -> u8
        ensures { result ≡ number_of self.now }
    {
        match self {
            TextWhat::NotUtf8 => 1,
            TextWhat::Encoding => 2,
            TextWhat::Doctype => 3,
            TextWhat::Markup => 4,
            TextWhat::Entity => 5,
            TextWhat::EndTag => 6,
            TextWhat::RepeatedAttribute => 7,
            TextWhat::Root => 8,
            TextWhat::Unfinished => 9,
            TextWhat::AfterRoot => 10,
            TextWhat::Depth => 11,
            TextWhat::NoInfrastructure => 12,
        }
    }

    /// The fault's word, as a fault line has it.
    pub fn word(&self) -> &'static str
        ensures { result.now ≡ word_of self.now }
    {
        match self {
            TextWhat::NotUtf8 => "NotUtf8",
            TextWhat::Encoding => "Encoding",
            TextWhat::Doctype => "Doctype",
            TextWhat::Markup => "Markup",
            TextWhat::Entity => "Entity",
            TextWhat::EndTag => "EndTag",
            TextWhat::RepeatedAttribute => "RepeatedAttribute",
            TextWhat::Root => "Root",
            TextWhat::Unfinished => "Unfinished",
            TextWhat::AfterRoot => "AfterRoot",
            TextWhat::Depth => "Depth",
            TextWhat::NoInfrastructure => "NoInfrastructure",
        }
    }
}

/// Why `scan` answers no item.
#[derive(Debug, Drop, Error)]
pub enum ItemFault {
    /// The item's own fault.
    #[error("a fault in the text")]
    Item(TextWhat),
    /// Memory couldn't be had.
    #[error("out of memory")]
    Memory,
}

impl From<OutOfMemory> for ItemFault {
    ghost from_gives = { λ _ e. e ≡ Memory };

    fn from(_: OutOfMemory) -> Self {
        ItemFault::Memory
    }
}

impl From<AllocError> for ItemFault {
    ghost from_gives = { λ _ e. e ≡ Memory };

    fn from(_: AllocError) -> Self {
        ItemFault::Memory
    }
}

impl<T: Drop> From<AllocFailed<T>> for ItemFault {
    ghost from_gives = { λ _ e. e ≡ Memory };

    fn from(_: AllocFailed<T>) -> Self {
        ItemFault::Memory
    }
}
