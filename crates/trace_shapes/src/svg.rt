ghost use Rattle.std.specs.Prelude.{◌≡◌, ◌++◌, ◌∷◌, [], map, codes, OnOk, IfOk};
ghost use Rattle.std.specs.List.{flat_map};
ghost use Rattle.std.specs.Fmt.{decimal};
ghost use Rattle.trace_shapes.specs.Characters.{is_plain};
ghost use Rattle.trace_shapes.specs.Elements.{named, value_text, area_text, attribute_text, escaped, escaped_byte, front, ending, element, empty_element};
ghost use Rattle.trace_shapes.specs.WellFormed.{IsDocument};
ghost use Rattle.trace_shapes.specs.Pictures.{line_text, panel_text, circle_text, label_text, shape_text, shapes_text, rules_text, sheet_text, head_attributes, triangle_text, head_text, heads_text, picture_attributes, picture_text, IsTextOf};

use crate::shape::{Picture, Point, Script, Shape, Style};
use crate::style::{RULES, class_of, script_class};
use itoa::Buffer;
use std::alloc::Global;
use xt_base::{Octets, OutOfMemory};

/// The value of an attribute.
#[derive(Clone, Copy)]
pub(crate) enum Value {
    Number(u64),
    /// A word of the program's own, in which nothing is escaped.
    Word(&'static [u8]),
    /// All from the origin to a place.
    From(Point),
}

/// An attribute of an element.
#[derive(Clone, Copy)]
pub(crate) struct Attribute {
    name: &'static [u8],
    value: Value,
}

fn number(name: &'static [u8], value: u64) -> Attribute
    ensures { named result ≡ (name.now, decimal value) }
{
    Attribute {
        name,
        value: Value::Number(value),
    }
}

fn word(name: &'static [u8], value: &'static [u8]) -> Attribute
    ensures { named result ≡ (name.now, value.now) }
{
    Attribute {
        name,
        value: Value::Word(value),
    }
}

fn area(name: &'static [u8], to: Point) -> Attribute
    ensures { named result ≡ (name.now, area_text to.x to.y) }
{
    Attribute {
        name,
        value: Value::From(to),
    }
}

/// Appends a number in decimal digits.
fn push_number(out: &mut Vec<u8>, value: u64) -> Result<(), OutOfMemory>
    ensures { OnOk result (out.new.items ≡ out.old.items ++ decimal value) }
{
    let mut buffer = Buffer::new();
    out.extend_from_slice(buffer.format(value).as_bytes())
}

/// Whether a byte stands for itself in a text.
fn is_plain(byte: u8) -> bool
    ensures { result ≡ is_plain byte }
{
    byte == b'\n'
        || ((32 <= byte && byte <= 126)
            && !(byte == b'"' || (byte == b'&' || (byte == b'<' || byte == b'>'))))
}

/// Appends a byte as text.
fn push_escaped_byte(out: &mut Vec<u8>, byte: u8) -> Result<(), OutOfMemory>
    ensures { OnOk result (out.new.items ≡ out.old.items ++ escaped_byte byte) }
{
    if byte == b'&' {
        return out.extend_from_slice(b"&amp;");
    }
    if byte == b'<' {
        return out.extend_from_slice(b"&lt;");
    }
    if byte == b'>' {
        return out.extend_from_slice(b"&gt;");
    }
    if byte == b'"' {
        return out.extend_from_slice(b"&quot;");
    }
    if !is_plain(byte) {
        return out.extend_from_slice(b"?");
    }
    out.push(byte)?;
    Ok(())
}

/// Appends bytes as text.
fn push_escaped(out: &mut Vec<u8>, bytes: &[u8]) -> Result<(), OutOfMemory>
    ensures { OnOk result (out.new.items ≡ out.old.items ++ escaped bytes.now) }
{
    for byte in bytes {
        push_escaped_byte(out, *byte)?;
    }
    Ok(())
}

/// Appends `0 0 X Y`.
fn push_area(out: &mut Vec<u8>, to: &Point) -> Result<(), OutOfMemory>
    ensures { OnOk result (out.new.items ≡ out.old.items ++ area_text to.now.x to.now.y) }
{
    out.extend_from_slice(b"0 0 ")?;
    push_number(out, to.x)?;
    out.push(b' ')?;
    push_number(out, to.y)
}

/// Appends the value of an attribute.
fn push_value(out: &mut Vec<u8>, value: &Value) -> Result<(), OutOfMemory>
    ensures { OnOk result (out.new.items ≡ out.old.items ++ value_text value.now) }
{
    match value {
        Value::Number(value) => push_number(out, *value),
        Value::Word(value) => out.extend_from_slice(value),
        Value::From(to) => push_area(out, to),
    }
}

/// Appends an attribute.
#[tactic(auto, unfolding(crate::specs::Elements::attribute_text))]
fn push_attribute(out: &mut Vec<u8>, attribute: &Attribute) -> Result<(), OutOfMemory>
    ensures { OnOk result (out.new.items ≡
        out.old.items ++ attribute_text (named attribute.now)) }
{
    out.push(b' ')?;
    out.extend_from_slice(attribute.name)?;
    out.extend_from_slice(b"=\"")?;
    push_value(out, &attribute.value)?;
    out.extend_from_slice(b"\"")
}

/// Appends attributes.
fn push_attributes(out: &mut Vec<u8>, attributes: &[Attribute]) -> Result<(), OutOfMemory>
    ensures { OnOk result (out.new.items ≡
        out.old.items ++ flat_map attribute_text (map named attributes.now)) }
{
    for attribute in attributes {
        push_attribute(out, attribute)?;
    }
    Ok(())
}

/// Appends `<`, the name and the attributes.
#[tactic(auto, unfolding(crate::specs::Elements::front))]
fn push_front(out: &mut Vec<u8>, name: &[u8], attributes: &[Attribute]) -> Result<(), OutOfMemory>
    ensures { OnOk result (out.new.items ≡
        out.old.items ++ front name.now (map named attributes.now)) }
{
    out.push(b'<')?;
    out.extend_from_slice(name)?;
    push_attributes(out, attributes)
}

/// Appends an element in which nothing stands.
#[tactic(auto, unfolding(crate::specs::Elements::empty_element))]
fn push_empty(out: &mut Vec<u8>, name: &[u8], attributes: &[Attribute]) -> Result<(), OutOfMemory>
    ensures { OnOk result (out.new.items ≡
        out.old.items ++ empty_element name.now (map named attributes.now)) }
{
    push_front(out, name, attributes)?;
    out.extend_from_slice(b"/>\n")
}

/// Appends the start of an element.
fn push_start(out: &mut Vec<u8>, name: &[u8], attributes: &[Attribute]) -> Result<(), OutOfMemory>
    ensures { OnOk result (out.new.items ≡
        out.old.items ++ (front name.now (map named attributes.now) ++ codes ">")) }
{
    push_front(out, name, attributes)?;
    out.extend_from_slice(b">")
}

/// Appends the end of an element.
#[tactic(auto, unfolding(crate::specs::Elements::ending))]
fn push_ending(out: &mut Vec<u8>, name: &[u8]) -> Result<(), OutOfMemory>
    ensures { OnOk result (out.new.items ≡ out.old.items ++ ending name.now) }
{
    out.extend_from_slice(b"</")?;
    out.extend_from_slice(name)?;
    out.extend_from_slice(b">\n")
}

/// Appends an element in which a text stands.
#[tactic(auto, unfolding(crate::specs::Elements::element))]
fn push_text(
    out: &mut Vec<u8>,
    name: &[u8],
    attributes: &[Attribute],
    text: &[u8],
) -> Result<(), OutOfMemory>
    ensures { OnOk result (out.new.items ≡
        out.old.items ++ element name.now (map named attributes.now) (escaped text.now)) }
{
    push_start(out, name, attributes)?;
    push_escaped(out, text)?;
    push_ending(out, name)
}

fn push_line(out: &mut Vec<u8>, style: Style, from: &Point, to: &Point) -> Result<(), OutOfMemory>
    ensures { OnOk result (out.new.items ≡ out.old.items ++ line_text style from.now to.now) }
{
    push_empty(
        out,
        b"line",
        &[
            word(b"class", class_of(style)),
            number(b"x1", from.x),
            number(b"y1", from.y),
            number(b"x2", to.x),
            number(b"y2", to.y),
        ],
    )
}

fn push_panel(
    out: &mut Vec<u8>,
    style: Style,
    corner: &Point,
    size: &Point,
    round: u64,
) -> Result<(), OutOfMemory>
    ensures { OnOk result (out.new.items ≡
        out.old.items ++ panel_text style corner.now size.now round) }
{
    push_empty(
        out,
        b"rect",
        &[
            word(b"class", class_of(style)),
            number(b"x", corner.x),
            number(b"y", corner.y),
            number(b"width", size.x),
            number(b"height", size.y),
            number(b"rx", round),
        ],
    )
}

fn push_circle(
    out: &mut Vec<u8>,
    style: Style,
    centre: &Point,
    radius: u64,
) -> Result<(), OutOfMemory>
    ensures { OnOk result (out.new.items ≡ out.old.items ++ circle_text style centre.now radius) }
{
    push_empty(
        out,
        b"circle",
        &[
            word(b"class", class_of(style)),
            number(b"cx", centre.x),
            number(b"cy", centre.y),
            number(b"r", radius),
        ],
    )
}

fn push_label(
    out: &mut Vec<u8>,
    script: Script,
    at: &Point,
    text: &Octets,
) -> Result<(), OutOfMemory>
    ensures { OnOk result (out.new.items ≡ out.old.items ++ label_text script at.now text.now) }
{
    push_text(
        out,
        b"text",
        &[
            word(b"class", script_class(script)),
            number(b"x", at.x),
            number(b"y", at.y),
        ],
        text.as_slice(),
    )
}

/// Appends a shape as an element.
#[tactic(auto, unfolding(crate::specs::Pictures::shape_text))]
fn push_shape(out: &mut Vec<u8>, shape: &Shape) -> Result<(), OutOfMemory>
    ensures { OnOk result (out.new.items ≡ out.old.items ++ shape_text shape.now) }
{
    match shape {
        Shape::Line { style, from, to } => push_line(out, *style, from, to),
        Shape::Panel {
            style,
            corner,
            size,
            round,
        } => push_panel(out, *style, corner, size, *round),
        Shape::Circle {
            style,
            centre,
            radius,
        } => push_circle(out, *style, centre, *radius),
        Shape::Text { script, at, text } => push_label(out, *script, at, text),
    }
}

/// Appends shapes, the first undermost.
fn push_shapes(out: &mut Vec<u8>, shapes: &[Shape]) -> Result<(), OutOfMemory>
    ensures { OnOk result (out.new.items ≡ out.old.items ++ shapes_text shapes.now) }
{
    for shape in shapes {
        push_shape(out, shape)?;
    }
    Ok(())
}

/// Appends the rules of a style sheet.
fn push_rules(out: &mut Vec<u8>, rules: &[&[u8]]) -> Result<(), OutOfMemory>
    ensures { OnOk result (out.new.items ≡ out.old.items ++ rules_text rules.now) }
{
    for rule in rules {
        push_escaped(out, rule)?;
    }
    Ok(())
}

/// Appends a style sheet.
#[tactic(auto, unfolding(crate::specs::Elements::element))]
fn push_sheet(out: &mut Vec<u8>, rules: &[&[u8]]) -> Result<(), OutOfMemory>
    ensures { OnOk result (out.new.items ≡ out.old.items ++ sheet_text rules.now) }
{
    push_start(out, b"style", &[])?;
    push_rules(out, rules)?;
    push_ending(out, b"style")
}

/// Appends the start of a head for arrows, of this name and size.
fn push_marker(
    out: &mut Vec<u8>,
    name: &'static [u8],
    size: &'static [u8],
) -> Result<(), OutOfMemory>
    ensures { OnOk result (out.new.items ≡
        out.old.items ++
        (front (codes "marker") (head_attributes name.now size.now) ++ codes ">")) }
{
    push_start(
        out,
        b"marker",
        &[
            word(b"id", name),
            word(b"viewBox", b"0 0 10 10"),
            word(b"refX", b"9"),
            word(b"refY", b"5"),
            word(b"markerWidth", size),
            word(b"markerHeight", size),
            word(b"markerUnits", b"userSpaceOnUse"),
            word(b"orient", b"auto"),
        ],
    )
}

/// Appends the triangle of a head for arrows, of this class.
fn push_triangle(out: &mut Vec<u8>, class: &'static [u8]) -> Result<(), OutOfMemory>
    ensures { OnOk result (out.new.items ≡ out.old.items ++ triangle_text class.now) }
{
    push_empty(
        out,
        b"path",
        &[word(b"class", class), word(b"d", b"M 0 0 10 5 0 10 z")],
    )
}

/// Appends a head for arrows, of this name, class and size.
#[tactic(auto, unfolding(crate::specs::Elements::element))]
fn push_head(
    out: &mut Vec<u8>,
    name: &'static [u8],
    class: &'static [u8],
    size: &'static [u8],
) -> Result<(), OutOfMemory>
    ensures { OnOk result (out.new.items ≡
        out.old.items ++ head_text name.now class.now size.now) }
{
    push_marker(out, name, size)?;
    push_triangle(out, class)?;
    push_ending(out, b"marker")
}

/// Appends the heads of arrows.
#[tactic(auto, unfolding(crate::specs::Elements::element))]
fn push_heads(out: &mut Vec<u8>) -> Result<(), OutOfMemory>
    ensures { OnOk result (out.new.items ≡ out.old.items ++ heads_text) }
{
    push_start(out, b"defs", &[])?;
    push_head(out, b"tip", b"tip", b"11")?;
    push_head(out, b"hint", b"hint", b"8")?;
    push_ending(out, b"defs")
}

/// Appends the start of the element of a picture of this size.
fn push_svg(out: &mut Vec<u8>, size: Point) -> Result<(), OutOfMemory>
    ensures { OnOk result (out.new.items ≡
        out.old.items ++ (front (codes "svg") (picture_attributes size) ++ codes ">")) }
{
    push_start(
        out,
        b"svg",
        &[
            word(b"xmlns", b"http://www.w3.org/2000/svg"),
            number(b"width", size.x),
            number(b"height", size.y),
            area(b"viewBox", size),
            word(b"role", b"img"),
        ],
    )
}

/// The text of a picture with a style sheet of these rules.
#[tactic(auto, unfolding(crate::specs::Pictures::picture_text, crate::specs::Elements::element))]
fn print_with(alloc: Global, rules: &[&[u8]], picture: &Picture) -> Result<Octets, OutOfMemory>
    ensures { IfOk result (λ text. text ≡ picture_text rules.now picture.now) }
{
    let mut out = Vec::new(alloc);
    push_svg(&mut out, picture.size)?;
    push_text(&mut out, b"title", &[], picture.title.as_slice())?;
    push_sheet(&mut out, rules)?;
    push_heads(&mut out)?;
    push_shapes(&mut out, picture.shapes.as_slice())?;
    push_ending(&mut out, b"svg")?;
    Octets::from_vec(out)
}

/// The text of a picture: an SVG.
#[tactic(auto, using(crate::proofs::Documents::text_is_document))]
pub fn print_picture(alloc: Global, picture: &Picture) -> Result<Octets, OutOfMemory>
    // Each shape is spelled, in order.
    ensures text { IfOk result (IsTextOf picture.now) }
    // It is one well-formed element.
    ensures document { IfOk result (λ text. IsDocument text) }
{
    print_with(alloc, RULES.as_slice(), picture)
}
