// What an item is.
use plan_core::{Items, Text};

/// An attribute of a tag. `value` is the attribute's text: references are replaced by their
/// characters, and each line end and each tab by one space.
#[derive(Drop)]
pub struct Attr {
    pub name: Text,
    pub value: Text,
}

/// The attributes of a tag, in its order.
pub type AttrList = Items<Attr>;

/// An item, and the place after its last byte.
#[derive(Drop)]
pub struct Item {
    pub kind: ItemKind,
    pub end: usize,
}

/// The kinds of items. `empty` is true exactly where a start tag ends with `/>`, and `blank` exactly
/// where characters are white space alone.
#[derive(Drop)]
pub enum ItemKind {
    Declaration,
    Instruction,
    Comment,
    Cdata,
    Start {
        name: Text,
        attrs: AttrList,
        empty: bool,
    },
    EndTag {
        name: Text,
    },
    Reference,
    Chars {
        blank: bool,
    },
}
