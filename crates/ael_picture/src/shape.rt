//! The shapes that a picture is made of.

use crate::choice::Choice;
use crate::class::Class;

/// A shape, at whole pixels from the picture's upper left corner. A title is told by the browser of whoever points at the shape.
#[derive(Drop)]
pub enum Shape {
    /// A filled box.
    Box {
        x: u32,
        y: u32,
        width: u32,
        height: u32,
        class: Class,
    },
    /// The same with a title.
    TitledBox {
        x: u32,
        y: u32,
        width: u32,
        height: u32,
        class: Class,
        title: String,
    },
    /// A curve from one point to another, which a third one pulls aside.
    Curve {
        x: u32,
        y: u32,
        bend_x: u32,
        bend_y: u32,
        to_x: u32,
        to_y: u32,
        class: Class,
    },
    /// A text that begins at a point.
    Label {
        x: u32,
        y: u32,
        class: Class,
        text: String,
    },
    /// The same with a title.
    TitledLabel {
        x: u32,
        y: u32,
        class: Class,
        text: String,
        title: String,
    },
    /// A text that chooses which lines are shown.
    Switch {
        x: u32,
        y: u32,
        choice: Choice,
        text: String,
    },
}
