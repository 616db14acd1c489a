//! A picture as it is written.

ghost use Rattle.std.specs.Prelude.{◌≡◌, ◌++◌, IfOk, OnOk, codes, string_bytes};
ghost use Rattle.std.specs.List.{flat_map};
ghost use Rattle.std.specs.Str.{chars};
ghost use Rattle.ael_picture.specs.Markup.{Done, IsMarkup, escaped, markup};
ghost use Rattle.ael_picture.specs.declared.shape.Shape.TheVariants.{Box, Curve, Label, Switch, TitledBox, TitledLabel};
ghost use Rattle.ael_picture.specs.Shapes.{all_drawn, drawn, picture, title_element};

use crate::choice::Choice;
use crate::class::Class;
use crate::shape::Shape;
use crate::style::STYLE;
use plain_state::NoMemory;
use std::alloc::{AllocError, Global};

/// Adds a character; those that markup begins with are named.
fn push_char(out: &mut String, c: char) -> Result<(), AllocError>
    ensures { OnOk result (string_bytes out.new ≡ string_bytes out.old ++ escaped c) }
{
    match c {
        '&' => out.push_str("&amp;"),
        '<' => out.push_str("&lt;"),
        '>' => out.push_str("&gt;"),
        _ => out.push(c),
    }
}

/// Adds a text.
fn push_text(out: &mut String, text: &str) -> Result<(), AllocError>
    ensures { OnOk result (string_bytes out.new ≡ string_bytes out.old ++ flat_map escaped (chars text.now)) }
{
    for c in text.chars() {
        push_char(out, c)?;
    }
    Ok(())
}

/// Adds a title, for the element that it stands in.
fn push_title(out: &mut String, title: &String) -> Result<(), AllocError>
    ensures { OnOk result (string_bytes out.new ≡ string_bytes out.old ++ markup (title_element (string_bytes title.now) Done)) }
{
    out.push_str("<title>")?;
    push_text(out, title)?;
    out.push_str("</title>")
}

/// Adds a filled box.
fn push_box(
    out: &mut String,
    x: u32,
    y: u32,
    width: u32,
    height: u32,
    class: Class,
) -> Result<(), AllocError>
    ensures { OnOk result (string_bytes out.new ≡ string_bytes out.old ++ markup (drawn (Box x y width height class) Done)) }
{
    write!(
        out,
        "<rect x=\"{x}\" y=\"{y}\" width=\"{width}\" height=\"{height}\" class=\"{class}\"/>"
    )
}

/// Adds a filled box with its title.
fn push_titled_box(
    out: &mut String,
    x: u32,
    y: u32,
    width: u32,
    height: u32,
    class: Class,
    title: &String,
) -> Result<(), AllocError>
    ensures { OnOk result (string_bytes out.new ≡ string_bytes out.old ++ markup (drawn (TitledBox x y width height class title.now) Done)) }
{
    write!(
        out,
        "<rect x=\"{x}\" y=\"{y}\" width=\"{width}\" height=\"{height}\" class=\"{class}\">"
    )?;
    push_title(out, title)?;
    out.push_str("</rect>")
}

/// Adds a curve.
fn push_curve(
    out: &mut String,
    x: u32,
    y: u32,
    bend_x: u32,
    bend_y: u32,
    to_x: u32,
    to_y: u32,
    class: Class,
) -> Result<(), AllocError>
    ensures { OnOk result (string_bytes out.new ≡ string_bytes out.old ++ markup (drawn (Curve x y bend_x bend_y to_x to_y class) Done)) }
{
    write!(
        out,
        "<path d=\"M{x} {y}Q{bend_x} {bend_y} {to_x} {to_y}\" class=\"{class}\"/>"
    )
}

/// Adds a text at its place.
fn push_label(
    out: &mut String,
    x: u32,
    y: u32,
    class: Class,
    text: &String,
) -> Result<(), AllocError>
    ensures { OnOk result (string_bytes out.new ≡ string_bytes out.old ++ markup (drawn (Label x y class text.now) Done)) }
{
    write!(out, "<text x=\"{x}\" y=\"{y}\" class=\"{class}\">")?;
    push_text(out, text)?;
    out.push_str("</text>")
}

/// Adds a text at its place, with its title.
fn push_titled_label(
    out: &mut String,
    x: u32,
    y: u32,
    class: Class,
    text: &String,
    title: &String,
) -> Result<(), AllocError>
    ensures { OnOk result (string_bytes out.new ≡ string_bytes out.old ++ markup (drawn (TitledLabel x y class text.now title.now) Done)) }
{
    write!(out, "<text x=\"{x}\" y=\"{y}\" class=\"{class}\">")?;
    push_title(out, title)?;
    push_text(out, text)?;
    out.push_str("</text>")
}

/// Adds a text that chooses lines.
fn push_switch(
    out: &mut String,
    x: u32,
    y: u32,
    choice: Choice,
    text: &String,
) -> Result<(), AllocError>
    ensures { OnOk result (string_bytes out.new ≡ string_bytes out.old ++ markup (drawn (Switch x y choice text.now) Done)) }
{
    write!(out, "<a id=\"{choice}\" href=\"#{choice}\">")?;
    push_label(out, x, y, Class::Plain, text)?;
    out.push_str("</a>")
}

/// Adds a shape.
fn push_shape(out: &mut String, shape: &Shape) -> Result<(), AllocError>
    ensures { OnOk result (string_bytes out.new ≡ string_bytes out.old ++ markup (drawn shape.now Done)) }
{
    match shape {
        Shape::Box {
            x,
            y,
            width,
            height,
            class,
        } => push_box(out, *x, *y, *width, *height, *class),
        Shape::TitledBox {
            x,
            y,
            width,
            height,
            class,
            title,
        } => push_titled_box(out, *x, *y, *width, *height, *class, title),
        Shape::Curve {
            x,
            y,
            bend_x,
            bend_y,
            to_x,
            to_y,
            class,
        } => push_curve(out, *x, *y, *bend_x, *bend_y, *to_x, *to_y, *class),
        Shape::Label { x, y, class, text } => push_label(out, *x, *y, *class, text),
        Shape::TitledLabel {
            x,
            y,
            class,
            text,
            title,
        } => push_titled_label(out, *x, *y, *class, text, title),
        Shape::Switch { x, y, choice, text } => push_switch(out, *x, *y, *choice, text),
    }
}

/// Adds shapes, the first one lowest.
fn push_shapes(out: &mut String, shapes: &[Shape]) -> Result<(), AllocError>
    ensures { OnOk result (string_bytes out.new ≡ string_bytes out.old ++ markup (all_drawn shapes.now)) }
{
    for shape in shapes {
        push_shape(out, shape)?;
    }
    Ok(())
}

/// The colours, the point of an arrow, which the style puts at the ends of curves, and the shapes.
fn written(alloc: Global, width: u32, height: u32, shapes: &[Shape]) -> Result<String, NoMemory>
    ensures { IfOk result (λ text. string_bytes text ≡ markup (picture width height STYLE.now shapes.now)) }
{
    let mut out = format!(in alloc;
        "<svg xmlns=\"http://www.w3.org/2000/svg\" width=\"{width}\" height=\"{height}\" viewBox=\"0 0 {width} {height}\"><style>"
    )?;
    push_text(&mut out, STYLE)?;
    out.push_str(
        "</style><marker id=\"arrow\" markerWidth=\"7\" markerHeight=\"6\" refX=\"6\" refY=\"3\" orient=\"auto\"><path d=\"M0 0L7 3L0 6\"/></marker>",
    )?;
    push_shapes(&mut out, shapes)?;
    out.push_str("</svg>")?;
    Ok(out)
}

/// The whole picture.
pub fn svg(alloc: Global, width: u32, height: u32, shapes: &[Shape]) -> Result<String, NoMemory>
    // It has these shapes, each as its definition writes it.
    ensures exact { IfOk result (λ text. string_bytes text ≡ markup (picture width height STYLE.now shapes.now)) }
    // Each element that is opened is closed, and no name, value or text has what would end it.
    ensures well_formed { IfOk result (λ text. IsMarkup (string_bytes text)) }
{
    written(alloc, width, height, shapes)
}
