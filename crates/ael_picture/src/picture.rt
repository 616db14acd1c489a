//! A heap as shapes.

use crate::class::Class;
use crate::drawing::Drawing;
use crate::heap::{Heap, Meaning};
use crate::legend::{draw_counts, draw_legend};
use crate::links::{draw_links, draw_marks};
use crate::pages::draw_pages;
use crate::roots::{draw_board, draw_registers};
use plain_state::NoMemory;
use std::alloc::{AllocError, Global};

/// The name of a space, with what it is for in this epoch.
fn title(alloc: Global, heap: &Heap, space: u8) -> Result<String, AllocError> {
    let mut text = format!(in alloc; "space {space}")?;
    if space == heap.spaces.to_space(heap.epoch) {
        text.push_str(", the new space of this epoch")?;
    } else {
        text.push_str(", the old space")?;
    }
    if let Some(area) = heap.area(space) {
        let start = heap.start(space);
        let (front, low) = (
            start.saturating_add(area.front),
            start.saturating_add(area.low),
        );
        write!(
            text,
            ": copied records up to FRONT at {front}, new ones from LOW at {low}"
        )?;
    }
    Ok(text)
}

/// The name of a space, above its pages.
fn draw_title(
    alloc: Global,
    heap: &Heap,
    drawing: &mut Drawing,
    space: u8,
) -> Result<(), NoMemory> {
    let text = title(alloc, heap, space)?;
    let y = drawing.bottom.saturating_add(10);
    drawing.margin(y, Class::Plain, text)?;
    drawing.down(15);
    Ok(())
}

/// The pages of both spaces, each space under its name; notes where the words of each page are.
fn draw_spaces(
    alloc: Global,
    heap: &Heap,
    words: &[Meaning],
    drawing: &mut Drawing,
    tops: &mut Vec<u32>,
) -> Result<(), NoMemory> {
    for space in 0..2u8 {
        draw_title(alloc, heap, drawing, space)?;
        draw_pages(alloc, heap, words, drawing, tops, space)?;
    }
    Ok(())
}

/// All but the counts and the legend.
fn draw_heap(alloc: Global, heap: &Heap, drawing: &mut Drawing) -> Result<(), NoMemory> {
    let words = heap.words(alloc)?;
    let mut tops = Vec::new(alloc);
    draw_spaces(alloc, heap, words.as_slice(), drawing, &mut tops)?;
    draw_links(heap, words.as_slice(), drawing, tops.as_slice())?;
    draw_board(alloc, heap, drawing, tops.as_slice())?;
    draw_registers(alloc, heap, drawing, tops.as_slice())?;
    draw_marks(alloc, heap, drawing, tops.as_slice())
}

/// The whole picture.
pub fn draw(alloc: Global, heap: &Heap) -> Result<Drawing, NoMemory> {
    let mut drawing = Drawing {
        shapes: Vec::new(alloc),
        bottom: 8,
    };
    draw_counts(alloc, heap, &mut drawing)?;
    draw_legend(alloc, &mut drawing)?;
    draw_heap(alloc, heap, &mut drawing)?;
    Ok(drawing)
}
