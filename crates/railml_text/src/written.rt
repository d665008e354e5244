// Attributes, tags and other markup as they are written.

/// An attribute as it is written: its name, and its value between the quotes.
#[derive(Clone, Copy, Debug)]
pub(crate) struct WrittenAttr<'a> {
    pub(crate) name: &'a [u8],
    pub(crate) value: &'a [u8],
}

/// What ends the attributes: `>` or `/>` of a start tag, `?>` of the declaration.
#[derive(Clone, Copy, Debug, PartialEq, Eq)]
pub(crate) enum Closing {
    Tag,
    Declaration,
}

/// What is next in a tag: an attribute, or the closing, and whether it is `/>`.
#[derive(Clone, Copy, Debug)]
pub(crate) enum TagStep<'a> {
    Attribute(WrittenAttr<'a>),
    Ends { empty: bool },
}

/// What begins with `<`, as it is written.
#[derive(Drop)]
pub(crate) enum Markup<'a> {
    Declaration {
        attrs: Vec<WrittenAttr<'a>>,
    },
    Instruction,
    Comment,
    Cdata,
    StartTag {
        name: &'a [u8],
        attrs: Vec<WrittenAttr<'a>>,
        empty: bool,
    },
    EndTag {
        name: &'a [u8],
    },
    /// The beginning of a document type declaration, which is no item.
    Doctype,
}
