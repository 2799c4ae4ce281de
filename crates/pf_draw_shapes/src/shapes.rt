//! Shapes, and how SVG spells them.
ghost use Rattle.std.specs.Prelude.{◌≡◌, ◌++◌, OnOk};
ghost use Rattle.pf_draw_shapes.specs.Shapes.{arrow_class, arrow_svg, begin_svg, block_class, block_svg, end_svg, entry_svg, label_svg, rule_svg, shape_svg, symbol_svg, text_class, text_svg, title_svg, titled_svg, two_decimals};

use crate::Symbol;
use crate::texts::put_xml;
use pf_base::{Bytes, NoMemory};
use pf_text::{put_decimal, put_text};

/// A point of the page, in pixels from the left and from the top.
#[derive(Clone, Copy)]
pub struct Point {
    pub x: u64,
    pub y: u64,
}

/// What a text is.
#[derive(Clone, Copy)]
pub enum TextKind {
    /// The heading of a lane.
    Heading,
    /// The number of a line.
    Number,
    /// A line of the script.
    Source,
    /// A line of the report.
    Told,
}

/// How the way of a packet ends.
#[derive(Clone, Copy)]
pub enum ArrowKind {
    /// It is taken: a line with a head.
    Taken,
    /// It is refused: a dashed line with a head.
    Refused,
    /// It is lost: a line with a cross at its end.
    Lost,
    /// It is still on its way as the picture ends: a line with a circle at its end.
    Left,
}

/// What a rectangle stands for.
#[derive(Clone, Copy)]
pub enum BlockKind {
    /// A call.
    Call,
    /// A move.
    Move,
}

/// A part of a picture. Each text is bytes, whatever they are; an empty title is none.
#[derive(Drop)]
pub enum Shape {
    /// A vertical line.
    Rule {
        x: u64,
        top: u64,
        bottom: u64,
    },
    /// A text from a point on, and a title.
    Text {
        at: Point,
        kind: TextKind,
        text: Bytes,
        title: Bytes,
    },
    /// A symbol at a point, a label at its right, and a title.
    Entry {
        at: Point,
        symbol: Symbol,
        label: Bytes,
        title: Bytes,
    },
    /// A line between two points, and a title.
    Arrow {
        from: Point,
        to: Point,
        kind: ArrowKind,
        title: Bytes,
    },
    /// A rectangle from its upper left point on, and a title.
    Block {
        at: Point,
        width: u64,
        height: u64,
        kind: BlockKind,
        title: Bytes,
    },
}

impl TextKind {
    /// The class of its style.
    fn class(self) -> &'static [u8]
        ensures { result.now ≡ text_class self }
    {
        match self {
            TextKind::Heading => b"l",
            TextKind::Number => b"n",
            TextKind::Source => b"s",
            TextKind::Told => b"t",
        }
    }
}

impl ArrowKind {
    /// The class of its style.
    fn class(self) -> &'static [u8]
        ensures { result.now ≡ arrow_class self }
    {
        match self {
            ArrowKind::Taken => b"p",
            ArrowKind::Refused => b"q",
            ArrowKind::Lost => b"x",
            ArrowKind::Left => b"o",
        }
    }
}

impl BlockKind {
    /// The class of its style.
    fn class(self) -> &'static [u8]
        ensures { result.now ≡ block_class self }
    {
        match self {
            BlockKind::Call => b"u",
            BlockKind::Move => b"m",
        }
    }
}

/// Puts two numbers with a text before, between and behind them.
pub(crate) fn put_two(
    out: &mut Vec<u8>,
    before: &[u8],
    first: u64,
    between: &[u8],
    second: u64,
    behind: &[u8],
) -> Result<(), NoMemory>
    ensures { OnOk result (out.new.items ≡ out.old.items ++ two_decimals before.now first between.now second behind.now) }
{
    put_text(out, before)?;
    put_decimal(out, first)?;
    put_text(out, between)?;
    put_decimal(out, second)?;
    put_text(out, behind)
}

/// Puts a title, where there is one.
fn put_title(out: &mut Vec<u8>, title: &[u8]) -> Result<(), NoMemory>
    ensures { OnOk result (out.new.items ≡ out.old.items ++ title_svg title.now) }
{
    if title.is_empty() {
        return Ok(());
    }
    put_text(out, b"<title>")?;
    put_xml(out, title)?;
    put_text(out, b"</title>")
}

/// Puts the begin of an element of a class.
fn put_begin(out: &mut Vec<u8>, name: &[u8], class: &[u8]) -> Result<(), NoMemory>
    ensures { OnOk result (out.new.items ≡ out.old.items ++ begin_svg name.now class.now) }
{
    put_text(out, b"<")?;
    put_text(out, name)?;
    put_text(out, b" class='")?;
    put_text(out, class)
}

/// Puts the end of an element, and a line feed.
fn put_end(out: &mut Vec<u8>, name: &[u8]) -> Result<(), NoMemory>
    ensures { OnOk result (out.new.items ≡ out.old.items ++ end_svg name.now) }
{
    put_text(out, b"</")?;
    put_text(out, name)?;
    put_text(out, b">\n")
}

fn put_rule(out: &mut Vec<u8>, x: u64, top: u64, bottom: u64) -> Result<(), NoMemory>
    ensures { OnOk result (out.new.items ≡ out.old.items ++ rule_svg x top bottom) }
{
    put_begin(out, b"path", b"r")?;
    put_two(out, b"' d='M", x, b" ", top, b"V")?;
    put_decimal(out, bottom)?;
    put_text(out, b"'>")?;
    put_end(out, b"path")
}

/// Puts a text behind its title.
fn put_titled(out: &mut Vec<u8>, text: &[u8], title: &[u8]) -> Result<(), NoMemory>
    ensures { OnOk result (out.new.items ≡ out.old.items ++ titled_svg text.now title.now) }
{
    put_title(out, title)?;
    put_xml(out, text)
}

fn put_words(
    out: &mut Vec<u8>,
    at: Point,
    kind: TextKind,
    text: &[u8],
    title: &[u8],
) -> Result<(), NoMemory>
    ensures { OnOk result (out.new.items ≡ out.old.items ++ text_svg at kind text.now title.now) }
{
    put_begin(out, b"text", kind.class())?;
    put_two(out, b"' x='", at.x, b"' y='", at.y, b"'>")?;
    put_titled(out, text, title)?;
    put_end(out, b"text")
}

fn put_symbol(out: &mut Vec<u8>, symbol: Symbol) -> Result<(), NoMemory>
    ensures { OnOk result (out.new.items ≡ out.old.items ++ symbol_svg symbol) }
{
    put_begin(out, b"path", symbol.class())?;
    put_text(out, b"' d='")?;
    put_text(out, symbol.path())?;
    put_text(out, b"'/>")
}

fn put_label(out: &mut Vec<u8>, label: &[u8]) -> Result<(), NoMemory>
    ensures { OnOk result (out.new.items ≡ out.old.items ++ label_svg label.now) }
{
    put_text(out, b"<text x='9' y='4'>")?;
    put_xml(out, label)?;
    put_text(out, b"</text>")
}

fn put_entry(
    out: &mut Vec<u8>,
    at: Point,
    symbol: Symbol,
    label: &[u8],
    title: &[u8],
) -> Result<(), NoMemory>
    ensures { OnOk result (out.new.items ≡ out.old.items ++ entry_svg at symbol label.now title.now) }
{
    put_two(out, b"<g transform='translate(", at.x, b" ", at.y, b")'>")?;
    put_title(out, title)?;
    put_symbol(out, symbol)?;
    put_label(out, label)?;
    put_end(out, b"g")
}

fn put_arrow(
    out: &mut Vec<u8>,
    from: Point,
    to: Point,
    kind: ArrowKind,
    title: &[u8],
) -> Result<(), NoMemory>
    ensures { OnOk result (out.new.items ≡ out.old.items ++ arrow_svg from to kind title.now) }
{
    put_begin(out, b"path", kind.class())?;
    put_two(out, b"' d='M", from.x, b" ", from.y, b"L")?;
    put_two(out, b"", to.x, b" ", to.y, b"'>")?;
    put_title(out, title)?;
    put_end(out, b"path")
}

fn put_block(
    out: &mut Vec<u8>,
    at: Point,
    width: u64,
    height: u64,
    kind: BlockKind,
    title: &[u8],
) -> Result<(), NoMemory>
    ensures { OnOk result (out.new.items ≡ out.old.items ++ block_svg at width height kind title.now) }
{
    put_begin(out, b"rect", kind.class())?;
    put_two(out, b"' x='", at.x, b"' y='", at.y, b"' width='")?;
    put_two(out, b"", width, b"' height='", height, b"'>")?;
    put_title(out, title)?;
    put_end(out, b"rect")
}

/// Puts the element of a shape, or a part of it where memory ends.
pub(crate) fn write_shape(out: &mut Vec<u8>, shape: &Shape) -> Result<(), NoMemory>
    ensures { OnOk result (out.new.items ≡ out.old.items ++ shape_svg shape.now) }
{
    match shape {
        Shape::Rule { x, top, bottom } => put_rule(out, *x, *top, *bottom),
        Shape::Text {
            at,
            kind,
            text,
            title,
        } => { put_words(out, *at, *kind, text.as_slice(), title.as_slice()) }
        Shape::Entry {
            at,
            symbol,
            label,
            title,
        } => { put_entry(out, *at, *symbol, label.as_slice(), title.as_slice()) }
        Shape::Arrow {
            from,
            to,
            kind,
            title,
        } => { put_arrow(out, *from, *to, *kind, title.as_slice()) }
        Shape::Block {
            at,
            width,
            height,
            kind,
            title,
        } => { put_block(out, *at, *width, *height, *kind, title.as_slice()) }
    }
}
