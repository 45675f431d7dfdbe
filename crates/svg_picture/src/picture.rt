//! What is drawn.
ghost use Rattle.std.specs.Prelude.{◌≡◌, [], OnOk, OnErr, IfOk, string_bytes};
ghost use Rattle.svg_picture.specs.Markup.{IsDocument};
ghost use Rattle.svg_picture.specs.Drawn.{line_text, rectangle_text, bar_text, cross_text, words_text, text_text, with_back, with_strokes, with_texts, HasDrawn};

use crate::content::Content;
use crate::words::{Anchor, Attribute, Field, Fixed, Look, Tag, Value};
use std::alloc::{AllocError, Global};
use std::marker::Model;

/// How the parts of a picture look.
const STYLE: &str = "
text { font: 12px sans-serif; fill: #222; paint-order: stroke; stroke: #fff; stroke-width: 3px; stroke-linejoin: round }
.head { font-weight: bold; font-size: 13px }
.small { font-size: 11px; fill: #555 }
.note { font-style: italic; fill: #777 }
.bad { fill: #b00020 }
.good { fill: #1b6e2c; font-weight: bold }
line { stroke: #334; stroke-width: 1.3 }
.message, .untaken, .call, .answer { marker-end: url(#tip) }
.tip { fill: #334 }
.lane { stroke: #b8bcc6; stroke-width: 1.5 }
.gone { stroke: #d9a0a8; stroke-width: 1.5; stroke-dasharray: 3 4 }
.rule { stroke: #eef0f4; stroke-width: 1 }
.untaken, .lost { stroke: #b00020; stroke-dasharray: 6 4 }
.call { stroke: #1f5fbf }
.answer { stroke: #1f5fbf; stroke-dasharray: 5 3 }
.cross { stroke: #b00020; stroke-width: 2.2 }
.bar { fill: #cfe0fa; stroke: #1f5fbf; stroke-width: 1 }
.open { fill: #fff; stroke: #1f5fbf; stroke-width: 1; stroke-dasharray: 3 3 }
.ground { fill: #fff }
";

/// Half of a bar's width and of a cross's size.
const HALF_BAR: u64 = 4;

const HALF_CROSS: u64 = 6;

/// A place in a picture, in pixels from its top left corner.
#[derive(Clone, Copy, Debug, PartialEq, Eq)]
pub struct Point {
    pub x: u64,
    pub y: u64,
}

/// A picture that is being drawn. Contracts see what stands behind, what is drawn over it, and the texts on top. After an
/// `Err`, which is want of memory, it has what it had.
#[derive(Drop)]
pub struct Picture {
    back: Content,
    strokes: Content,
    texts: Content,
}

impl Model for Picture {
    ghost use Rattle.svg_picture.specs.Drawn.{Drawn};

    ghost Value = { Drawn };

    ghost view = { λ picture. record { back = picture.back; strokes = picture.strokes; texts = picture.texts } };
}

/// A line from one place to another.
fn line(alloc: Global, look: Look, from: Point, to: Point) -> Result<Content, AllocError>
    ensures { IfOk result (λ content. content ≡ line_text look from to) }
{
    let attributes = [
        Attribute::look(look),
        Attribute::number(Field::FromX, from.x),
        Attribute::number(Field::FromY, from.y),
        Attribute::number(Field::ToX, to.x),
        Attribute::number(Field::ToY, to.y),
    ];
    Content::of_element(alloc, Tag::Line, &attributes, &Content::new(alloc))
}

/// A rectangle with its top left corner at a place.
fn rectangle(
    alloc: Global,
    look: Look,
    at: Point,
    width: u64,
    height: u64,
) -> Result<Content, AllocError>
    ensures { IfOk result (λ content. content ≡ rectangle_text look at width height) }
{
    let attributes = [
        Attribute::look(look),
        Attribute::number(Field::X, at.x),
        Attribute::number(Field::Y, at.y),
        Attribute::number(Field::Width, width),
        Attribute::number(Field::Height, height),
    ];
    Content::of_element(alloc, Tag::Rect, &attributes, &Content::new(alloc))
}

/// The head of arrows, which stands nowhere by itself.
fn arrow_head(alloc: Global) -> Result<Content, AllocError> {
    let shape = [
        Attribute::look(Look::Tip),
        Attribute::fixed(Field::Shape, Fixed::TipShape),
    ];
    let path = Content::of_element(alloc, Tag::Path, &shape, &Content::new(alloc))?;
    let attributes = [
        Attribute::fixed(Field::Id, Fixed::TipName),
        Attribute::fixed(Field::View, Fixed::TipView),
        Attribute::number(Field::TipX, 9),
        Attribute::number(Field::TipY, 5),
        Attribute::number(Field::MarkerWidth, 7),
        Attribute::number(Field::MarkerHeight, 7),
        Attribute::fixed(Field::Orientation, Fixed::Turning),
    ];
    let marker = Content::of_element(alloc, Tag::Marker, &attributes, &path)?;
    Content::of_element(alloc, Tag::Defs, &[], &marker)
}

/// How things look, and the ground of a picture of that size.
fn head(alloc: Global, width: u64, height: u64) -> Result<Content, AllocError> {
    let style = Content::of_text(alloc, STYLE)?;
    let mut head = Content::of_element(alloc, Tag::Style, &[], &style)?;
    head.append(&arrow_head(alloc)?)?;
    let corner = Point { x: 0, y: 0 };
    head.append(&rectangle(alloc, Look::Ground, corner, width, height)?)?;
    Ok(head)
}

/// What a text is, and what is shown when one points at it, if that isn't empty.
fn words(alloc: Global, text: &str, more: &str) -> Result<Content, AllocError>
    ensures { IfOk result (λ content. content ≡ words_text text.now more.now) }
{
    let text = Content::of_text(alloc, text)?;
    if more.is_empty() {
        return Ok(text);
    }
    let more = Content::of_text(alloc, more)?;
    let mut words = Content::of_element(alloc, Tag::Title, &[], &more)?;
    words.append(&text)?;
    Ok(words)
}

impl Picture {
    /// Nothing is drawn. Takes no memory.
    pub fn new(alloc: Global) -> Self
        ensures { result ≡ record { back = []; strokes = []; texts = [] } }
    {
        Picture {
            back: Content::new(alloc),
            strokes: Content::new(alloc),
            texts: Content::new(alloc),
        }
    }

    /// Draws a line behind all else.
    pub fn back_line(
        &mut self,
        alloc: Global,
        look: Look,
        from: Point,
        to: Point,
    ) -> Result<(), AllocError>
        ensures ok { OnOk result (self.new ≡ with_back self.old (line_text look from to)) }
        ensures err { OnErr result (self.new ≡ self.old) }
    {
        self.back.append(&line(alloc, look, from, to)?)
    }

    /// Draws a line, or an arrow where that is what it looks like.
    pub fn line(
        &mut self,
        alloc: Global,
        look: Look,
        from: Point,
        to: Point,
    ) -> Result<(), AllocError>
        ensures ok { OnOk result (self.new ≡ with_strokes self.old (line_text look from to)) }
        ensures err { OnErr result (self.new ≡ self.old) }
    {
        self.strokes.append(&line(alloc, look, from, to)?)
    }

    /// Draws a bar from a place down to a height.
    pub fn bar(
        &mut self,
        alloc: Global,
        look: Look,
        from: Point,
        until: u64,
    ) -> Result<(), AllocError>
        ensures ok { OnOk result (self.new ≡ with_back self.old (bar_text look from until)) }
        ensures err { OnErr result (self.new ≡ self.old) }
    {
        let at = Point {
            x: from.x.saturating_sub(HALF_BAR),
            y: from.y,
        };
        let height = until.saturating_sub(from.y).max(HALF_BAR);
        self.back
            .append(&rectangle(alloc, look, at, 2 * HALF_BAR, height)?)
    }

    /// Draws a cross.
    pub fn cross(&mut self, alloc: Global, at: Point) -> Result<(), AllocError>
        ensures ok { OnOk result (self.new ≡ with_strokes self.old (cross_text at)) }
        ensures err { OnErr result (self.new ≡ self.old) }
    {
        let left = at.x.saturating_sub(HALF_CROSS);
        let right = at.x.saturating_add(HALF_CROSS);
        let top = at.y.saturating_sub(HALF_CROSS);
        let foot = at.y.saturating_add(HALF_CROSS);
        let falling = (Point { x: left, y: top }, Point { x: right, y: foot });
        let rising = (Point { x: left, y: foot }, Point { x: right, y: top });
        let mut cross = line(alloc, Look::Cross, falling.0, falling.1)?;
        cross.append(&line(alloc, Look::Cross, rising.0, rising.1)?)?;
        self.strokes.append(&cross)
    }

    /// Writes a text, and what is shown when one points at it, if that isn't empty. A character that can't stand in SVG is
    /// written as U+FFFD.
    pub fn text(
        &mut self,
        alloc: Global,
        look: Look,
        at: Point,
        anchor: Anchor,
        text: &str,
        more: &str,
    ) -> Result<(), AllocError>
        ensures ok { OnOk result (self.new ≡ with_texts self.old (text_text look at anchor text.now more.now)) }
        ensures err { OnErr result (self.new ≡ self.old) }
    {
        let attributes = [
            Attribute::look(look),
            Attribute::number(Field::X, at.x),
            Attribute::number(Field::Y, at.y),
            Attribute {
                field: Field::Anchor,
                value: Value::Anchor(anchor),
            },
        ];
        let words = words(alloc, text, more)?;
        let text = Content::of_element(alloc, Tag::Text, &attributes, &words)?;
        self.texts.append(&text)
    }

    /// The picture of that size, in pixels. Costs what was drawn.
    pub fn finish(self, alloc: Global, width: u64, height: u64) -> Result<String, AllocError>
        // It is one well-formed element `svg`, and has what was drawn.
        ensures document { IfOk result (λ text. IsDocument (string_bytes text)) }
        ensures drawn { IfOk result (λ text. HasDrawn self width height (string_bytes text)) }
    {
        let mut inside = head(alloc, width, height)?;
        inside.append(&self.back)?;
        inside.append(&self.strokes)?;
        inside.append(&self.texts)?;
        let attributes = [
            Attribute::fixed(Field::Namespace, Fixed::Namespace),
            Attribute::number(Field::Width, width),
            Attribute::number(Field::Height, height),
        ];
        inside.picture(alloc, &attributes)
    }
}
