//! The words of SVG that a picture needs.
ghost use Rattle.std.specs.Prelude.{◌≡◌};
ghost use Rattle.svg_picture.specs.Words.{tag_text, field_text, look_text, anchor_text, fixed_text};
ghost use Rattle.svg_picture.specs.Drawn.{number_of, class_of, fixed_of};

/// An element.
#[derive(Clone, Copy)]
pub(crate) enum Tag {
    Svg,
    Style,
    Defs,
    Marker,
    Path,
    Rect,
    Line,
    Text,
    Title,
}

impl Tag {
    pub(crate) fn word(self) -> &'static str
        ensures { result.now ≡ tag_text self }
    {
        match self {
            Tag::Svg => "svg",
            Tag::Style => "style",
            Tag::Defs => "defs",
            Tag::Marker => "marker",
            Tag::Path => "path",
            Tag::Rect => "rect",
            Tag::Line => "line",
            Tag::Text => "text",
            Tag::Title => "title",
        }
    }
}

/// An attribute's name.
#[derive(Clone, Copy)]
pub(crate) enum Field {
    Namespace,
    Class,
    Id,
    X,
    Y,
    FromX,
    FromY,
    ToX,
    ToY,
    Width,
    Height,
    View,
    Anchor,
    Shape,
    TipX,
    TipY,
    MarkerWidth,
    MarkerHeight,
    Orientation,
}

impl Field {
    pub(crate) fn word(self) -> &'static str
        ensures { result.now ≡ field_text self }
    {
        match self {
            Field::Namespace => "xmlns",
            Field::Class => "class",
            Field::Id => "id",
            Field::X => "x",
            Field::Y => "y",
            Field::FromX => "x1",
            Field::FromY => "y1",
            Field::ToX => "x2",
            Field::ToY => "y2",
            Field::Width => "width",
            Field::Height => "height",
            Field::View => "viewBox",
            Field::Anchor => "text-anchor",
            Field::Shape => "d",
            Field::TipX => "refX",
            Field::TipY => "refY",
            Field::MarkerWidth => "markerWidth",
            Field::MarkerHeight => "markerHeight",
            Field::Orientation => "orient",
        }
    }
}

/// What something looks like, by what it is.
#[derive(Clone, Copy, Debug, PartialEq, Eq)]
pub enum Look {
    /// A text beside an arrow.
    Label,
    /// The name of a lane, and what stands below it.
    Head,
    Small,
    /// A remark.
    Note,
    /// What went wrong, and what is new and good.
    Bad,
    Good,
    /// A lane, one of somebody who is gone, and a line between rows.
    Lane,
    Gone,
    Rule,
    /// Arrows: a message, one that wasn't taken, a call and its answer.
    Message,
    Untaken,
    Call,
    Answer,
    /// The line of what never arrived, and the cross at its end.
    Lost,
    Cross,
    /// A bar, and one that nothing ended.
    Bar,
    Open,
    /// The ground behind all else.
    Ground,
    /// The head of an arrow.
    Tip,
}

impl Look {
    pub(crate) fn word(self) -> &'static str
        ensures { result.now ≡ look_text self }
    {
        match self {
            Look::Label => "label",
            Look::Head => "head",
            Look::Small => "small",
            Look::Note => "note",
            Look::Bad => "bad",
            Look::Good => "good",
            Look::Lane => "lane",
            Look::Gone => "gone",
            Look::Rule => "rule",
            Look::Message => "message",
            Look::Untaken => "untaken",
            Look::Call => "call",
            Look::Answer => "answer",
            Look::Lost => "lost",
            Look::Cross => "cross",
            Look::Bar => "bar",
            Look::Open => "open",
            Look::Ground => "ground",
            Look::Tip => "tip",
        }
    }
}

/// Which end of a text stands at its place.
#[derive(Clone, Copy, Debug, PartialEq, Eq)]
pub enum Anchor {
    Start,
    Middle,
    End,
}

impl Anchor {
    pub(crate) fn word(self) -> &'static str
        ensures { result.now ≡ anchor_text self }
    {
        match self {
            Anchor::Start => "start",
            Anchor::Middle => "middle",
            Anchor::End => "end",
        }
    }
}

/// A value that is the same in each picture.
#[derive(Clone, Copy)]
pub(crate) enum Fixed {
    /// What names the elements of SVG.
    Namespace,
    /// The name, the frame and the shape of an arrow's head, which turns with the arrow.
    TipName,
    TipView,
    TipShape,
    Turning,
}

impl Fixed {
    pub(crate) fn word(self) -> &'static str
        ensures { result.now ≡ fixed_text self }
    {
        match self {
            Fixed::Namespace => "http://www.w3.org/2000/svg",
            Fixed::TipName => "tip",
            Fixed::TipView => "0 0 10 10",
            Fixed::TipShape => "M0 0 L10 5 L0 10 z",
            Fixed::Turning => "auto",
        }
    }
}

/// An attribute's value.
#[derive(Clone, Copy)]
pub(crate) enum Value {
    Number(u64),
    Look(Look),
    Anchor(Anchor),
    Fixed(Fixed),
}

#[derive(Clone, Copy)]
pub(crate) struct Attribute {
    pub(crate) field: Field,
    pub(crate) value: Value,
}

impl Attribute {
    pub(crate) fn number(field: Field, number: u64) -> Attribute
        ensures { result ≡ number_of field number }
    {
        Attribute {
            field,
            value: Value::Number(number),
        }
    }

    pub(crate) fn look(look: Look) -> Attribute
        ensures { result ≡ class_of look }
    {
        Attribute {
            field: Field::Class,
            value: Value::Look(look),
        }
    }

    pub(crate) fn fixed(field: Field, fixed: Fixed) -> Attribute
        ensures { result ≡ fixed_of field fixed }
    {
        Attribute {
            field,
            value: Value::Fixed(fixed),
        }
    }
}
