//! What stands one behind another in SVG.
ghost use Rattle.std.specs.Prelude.{◌≡◌, [], ◌++◌, OnOk, OnErr, IfOk, string_bytes};
ghost use Rattle.std.specs.List.{flat_map};
ghost use Rattle.std.specs.Str.{chars};
ghost use Rattle.svg_picture.specs.Markup.{value_text, attribute_text, element_text, escaped_char, HasEachOnce, IsDocument};

use crate::escaping::push_escaped;
use crate::words::{Attribute, Tag, Value};
use std::alloc::{AllocError, Global};
use std::marker::Model;

/// Texts and elements, one behind another. Contracts see their bytes.
#[derive(Drop)]
pub(crate) struct Content {
    text: String,
}

impl Model for Content {
    ghost use Rattle.std.specs.Prelude.{ℕ, List, string_bytes};
    ghost use Rattle.svg_picture.specs.Markup.{IsMarkup};

    ghost Value = { List ℕ };

    ghost view = { λ content. string_bytes content.text };

    ghost invariant = { λ content. IsMarkup (string_bytes content.text) };
}

fn push_value(out: &mut String, value: Value) -> Result<(), AllocError>
    ensures { OnOk result (string_bytes out.new ≡ string_bytes out.old ++ value_text value) }
{
    match value {
        Value::Number(number) => write!(out, "{number}"),
        Value::Look(look) => out.push_str(look.word()),
        Value::Anchor(anchor) => out.push_str(anchor.word()),
        Value::Fixed(fixed) => out.push_str(fixed.word()),
    }
}

fn push_attribute(out: &mut String, attribute: Attribute) -> Result<(), AllocError>
    ensures { OnOk result (string_bytes out.new ≡ string_bytes out.old ++ attribute_text attribute) }
{
    out.push_str(" ")?;
    out.push_str(attribute.field.word())?;
    out.push_str("=\"")?;
    push_value(out, attribute.value)?;
    out.push_str("\"")
}

fn push_attributes(out: &mut String, attributes: &[Attribute]) -> Result<(), AllocError>
    ensures { OnOk result (string_bytes out.new ≡ string_bytes out.old ++ flat_map attribute_text attributes.now) }
{
    for attribute in attributes {
        push_attribute(out, *attribute)?;
    }
    Ok(())
}

/// The bytes of one element.
fn element_text(
    alloc: Global,
    tag: Tag,
    attributes: &[Attribute],
    inside: &str,
) -> Result<String, AllocError>
    ensures { IfOk result (λ text. string_bytes text ≡ element_text tag attributes.now inside.now) }
{
    let mut text = String::from_str(alloc, "<")?;
    text.push_str(tag.word())?;
    push_attributes(&mut text, attributes)?;
    text.push_str(">")?;
    text.push_str(inside)?;
    text.push_str("</")?;
    text.push_str(tag.word())?;
    text.push_str(">\n")?;
    Ok(text)
}

impl Content {
    pub(crate) fn new(alloc: Global) -> Self
        ensures { result ≡ [] }
    {
        Content {
            text: String::new(alloc),
        }
    }

    /// A text, which stands for itself.
    pub(crate) fn of_text(alloc: Global, words: &str) -> Result<Self, AllocError>
        ensures { IfOk result (λ content. content ≡ flat_map escaped_char (chars words.now)) }
    {
        let mut text = String::new(alloc);
        push_escaped(&mut text, words)?;
        Ok(Content { text })
    }

    /// One element.
    pub(crate) fn of_element(
        alloc: Global,
        tag: Tag,
        attributes: &[Attribute],
        inside: &Content,
    ) -> Result<Self, AllocError>
        requires { HasEachOnce attributes.now }
        ensures { IfOk result (λ content. content ≡ element_text tag attributes.now inside.now) }
    {
        let text = element_text(alloc, tag, attributes, inside.text.as_str())?;
        Ok(Content { text })
    }

    /// Appends more, all of it or nothing.
    pub(crate) fn append(&mut self, more: &Content) -> Result<(), AllocError>
        ensures ok { OnOk result (self.new ≡ self.old ++ more.now) }
        ensures err { OnErr result (self.new ≡ self.old) }
    {
        self.text.push_str(more.text.as_str())
    }

    /// The text of a picture that has this inside.
    pub(crate) fn picture(
        &self,
        alloc: Global,
        attributes: &[Attribute],
    ) -> Result<String, AllocError>
        requires { HasEachOnce attributes.now }
        ensures document { IfOk result (λ text. IsDocument (string_bytes text)) }
        ensures text { IfOk result (λ text. string_bytes text ≡ element_text Tag.Svg attributes.now self.now) }
    {
        let text = element_text(alloc, Tag::Svg, attributes, self.text.as_str())?;
        Ok(text)
    }
}
