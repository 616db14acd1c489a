//! A picture that is being drawn.

use crate::class::Class;
use crate::shape::Shape;
use plain_state::NoMemory;
use space_map::PAGE_WORDS;

/// Where the words of a page begin.
pub const LEFT: u32 = 132;

/// The width of a word.
pub const CELL: u32 = 18;

/// The width of a page.
pub const ROW: u32 = CELL * PAGE_WORDS;

/// The height of a word.
pub const TALL: u32 = 16;

/// The width of the picture.
pub const WIDTH: u32 = 1296;

/// The most width of a character of a small text.
const LETTER: u32 = 6;

/// A picture that is being drawn: its shapes, and how far down it goes.
#[derive(Drop)]
pub struct Drawing {
    pub shapes: Vec<Shape>,
    pub bottom: u32,
}

/// A box: its upper left corner, and how large it is.
#[derive(Clone, Copy)]
pub struct Frame {
    pub x: u32,
    pub y: u32,
    pub width: u32,
    pub height: u32,
}

/// What a line leads from or to: a place from the left, and the upper and the lower edge of the box that is there.
#[derive(Clone, Copy)]
pub struct End {
    pub x: u32,
    pub top: u32,
    pub bottom: u32,
}

impl Drawing {
    /// Adds a shape, above all others.
    pub fn add(&mut self, shape: Shape) -> Result<(), NoMemory> {
        self.shapes.push(shape)?;
        Ok(())
    }

    pub fn block(&mut self, frame: Frame, class: Class) -> Result<(), NoMemory> {
        self.add(Shape::Box {
            x: frame.x,
            y: frame.y,
            width: frame.width,
            height: frame.height,
            class,
        })
    }

    pub fn titled_block(
        &mut self,
        frame: Frame,
        class: Class,
        title: String,
    ) -> Result<(), NoMemory> {
        self.add(Shape::TitledBox {
            x: frame.x,
            y: frame.y,
            width: frame.width,
            height: frame.height,
            class,
            title,
        })
    }

    pub fn label(&mut self, x: u32, y: u32, class: Class, text: String) -> Result<(), NoMemory> {
        self.add(Shape::Label { x, y, class, text })
    }

    pub fn titled_label(
        &mut self,
        x: u32,
        y: u32,
        text: String,
        title: String,
    ) -> Result<(), NoMemory> {
        self.add(Shape::TitledLabel {
            x,
            y,
            class: Class::Plain,
            text,
            title,
        })
    }

    /// A text in the margin, beside the words that begin so far down.
    pub fn margin(&mut self, y: u32, class: Class, text: String) -> Result<(), NoMemory> {
        self.label(8, y, class, text)
    }

    /// An arrow from one end to another: straight down at first, or below a row that has both.
    pub fn arrow(&mut self, from: End, to: End, class: Class) -> Result<(), NoMemory> {
        let (y, to_y) = if from.top < to.top {
            (from.bottom, to.top)
        } else if from.top > to.top {
            (from.top, to.bottom)
        } else {
            (from.bottom, to.bottom)
        };
        let (bend_x, bend_y) = if from.top == to.top {
            (middle(from.x, to.x), y.saturating_add(TALL))
        } else {
            (from.x, middle(y, to_y))
        };
        self.add(Shape::Curve {
            x: from.x,
            y,
            bend_x,
            bend_y,
            to_x: to.x,
            to_y,
            class,
        })
    }

    pub fn down(&mut self, by: u32) {
        self.bottom = self.bottom.saturating_add(by);
    }
}

fn middle(a: u32, b: u32) -> u32 {
    a / 2 + b / 2
}

/// Where a word begins, by its number in its page.
pub fn column_x(column: u32) -> u32 {
    LEFT.saturating_add(CELL.saturating_mul(column))
}

/// Whether a small text has room in so much width.
pub fn fits(text: &String, width: u32) -> bool {
    text.len().saturating_mul(LETTER as usize) <= width as usize
}
