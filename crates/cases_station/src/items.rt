// What no file's answer shows of an item: the text of an attribute with white space or references in it, and where a
// declaration can't be gone on with.
use railml_text::{ItemFault, ItemKind, TextWhat, scan};
use std::alloc::Global;
use std::test::Fail;

/// A start tag, and the text of its first attribute.
static VALUES: [(&str, &str); 5] = [
    ("<a b='x\r\ny\rz\n\t'>", "x y z  "),
    ("<a b='\r\r\n\n'>", "   "),
    ("<a b='&#13;&#10;\n'>", "\r\n "),
    (
        "<a b='&quot;&#xe4;&amp;lt;\u{1f686}'>",
        "\"\u{e4}&lt;\u{1f686}",
    ),
    ("<a b='\0' c='1'>", "\0"),
];

/// Whether a text begins with a start tag whose first attribute has this text.
fn has_value(alloc: Global, text: &str, value: &str) -> Result<bool, Fail> {
    if text.is_empty() || !text.is_char_boundary(0) {
        return Ok(false);
    }
    let item = scan(alloc, text.as_bytes(), 0, false)?;
    Ok(match &item.kind {
        ItemKind::Start { attrs, .. } => match attrs.as_slice().first() {
            Some(attr) => attr.value.as_str() == value,
            None => false,
        },
        _ => false,
    })
}

fn scan_all(alloc: Global) -> Result<(), Fail> {
    for (text, value) in &VALUES {
        if !has_value(alloc, text, value)? {
            return Err(Fail::new(*text));
        }
    }
    match scan(alloc, b"<?xml ?", 0, true) {
        Err(ItemFault::Item(TextWhat::Markup)) => Ok(()),
        _ => Err(Fail::new("a declaration has an attribute")),
    }
}

#[test]
fn attributes_have_their_texts(rt: HostRuntime) -> Result<(), Fail> {
    scan_all(rt.alloc())
}
