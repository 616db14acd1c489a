//! What leads from word to word, and the ends of the free room.

use crate::class::Class;
use crate::drawing::{CELL, Drawing, End, Frame, column_x};
use crate::heap::{Heap, Meaning};
use crate::pages::{is_by_word, record_height};
use heap_words::{Kind, Word};
use plain_state::NoMemory;
use record_layout::read_forward;
use space_map::{AreaWord, PAGE_WORDS};
use std::alloc::Global;

/// The height of the bars of FRONT and LOW.
const BAR: u32 = 13;

/// The fewest free words beside which FRONT and LOW have their names.
const NAMED_ROOM: u32 = 8;

/// The word at an address, as what a line leads to, if its page was drawn.
pub fn end_at(heap: &Heap, tops: &[u32], addr: u32) -> Option<End> {
    let top = *tops.get((addr / PAGE_WORDS) as usize)?;
    Some(End {
        x: column_x(addr % PAGE_WORDS).saturating_add(CELL / 2),
        top,
        bottom: top.saturating_add(record_height(heap)),
    })
}

/// What a line from a word of a record stands for.
fn field_class(heap: &Heap, meaning: Meaning) -> Class {
    match heap.found(meaning.owner) {
        Some(found) if found.kind == Kind::Weak => Class::Weak,
        _ if meaning.class == Class::Old => Class::FieldOld,
        _ => Class::FieldNew,
    }
}

/// A line from a word of a record to the record that it refers to.
fn draw_field(
    heap: &Heap,
    drawing: &mut Drawing,
    tops: &[u32],
    addr: u32,
    meaning: Meaning,
) -> Result<(), NoMemory> {
    let Some(target) = Word(heap.word(addr)).as_pointer() else {
        return Ok(());
    };
    let (Some(from), Some(to)) = (end_at(heap, tops, addr), end_at(heap, tops, target)) else {
        return Ok(());
    };
    drawing.arrow(from, to, field_class(heap, meaning))
}

/// A line from what stands in a record's place to its copy.
fn draw_copy(heap: &Heap, drawing: &mut Drawing, tops: &[u32], addr: u32) -> Result<(), NoMemory> {
    let Some(forward) = read_forward(heap.word(addr)) else {
        return Ok(());
    };
    let (Some(from), Some(to)) = (end_at(heap, tops, addr), end_at(heap, tops, forward.addr)) else {
        return Ok(());
    };
    let class = if heap.is_traced() {
        Class::Copied
    } else {
        Class::Copy
    };
    drawing.arrow(from, to, class)
}

/// Lines from all pointers of records to what they refer to, and from old places to copies.
pub fn draw_links(
    heap: &Heap,
    words: &[Meaning],
    drawing: &mut Drawing,
    tops: &[u32],
) -> Result<(), NoMemory> {
    if !is_by_word(heap) {
        return Ok(());
    }
    let mut addr = 0u32;
    for meaning in words {
        match meaning.class {
            Class::New | Class::Old => draw_field(heap, drawing, tops, addr, *meaning)?,
            Class::Forward | Class::Faded => draw_copy(heap, drawing, tops, addr)?,
            _ => {}
        }
        addr = addr.saturating_add(1);
    }
    Ok(())
}

/// FRONT or LOW of a space: a bar across a page, behind so many of its words.
fn draw_bar(
    alloc: Global,
    drawing: &mut Drawing,
    top: u32,
    column: u32,
    name: &str,
    addr: u32,
) -> Result<(), NoMemory> {
    let frame = Frame {
        x: column_x(column).saturating_sub(1),
        y: top.saturating_sub(1),
        width: 3,
        height: BAR,
    };
    let title = format!(in alloc; "{name}: address {addr}")?;
    drawing.titled_block(frame, Class::Mark, title)
}

/// The last of so many words of a space, and how many words of its page are behind its first.
fn page_before(heap: &Heap, space: u8, offset: u32) -> (u32, u32) {
    let start = heap.spaces.pages().saturating_mul(u32::from(space));
    if offset == 0 {
        return (start, 0);
    }
    let last = offset - 1;
    (
        start.saturating_add(last / PAGE_WORDS),
        last % PAGE_WORDS + 1,
    )
}

/// FRONT: behind the last copied record, with its name in the free room.
fn draw_front(
    alloc: Global,
    heap: &Heap,
    drawing: &mut Drawing,
    tops: &[u32],
    space: u8,
    area: AreaWord,
) -> Result<(), NoMemory> {
    let is_page_end = area.front % PAGE_WORDS == 0 && area.front < area.low;
    let (page, column) = if is_page_end {
        let (page, _) = page_before(heap, space, area.front.saturating_add(1));
        (page, 0)
    } else {
        page_before(heap, space, area.front)
    };
    let Some(top) = tops.get(page as usize) else {
        return Ok(());
    };
    let addr = heap.start(space).saturating_add(area.front);
    draw_bar(alloc, drawing, *top, column, "FRONT", addr)?;
    if area.low.saturating_sub(area.front) < NAMED_ROOM || column > PAGE_WORDS - 3 {
        return Ok(());
    }
    let name = String::from_str(alloc, "FRONT")?;
    drawing.label(
        column_x(column).saturating_add(18),
        top.saturating_add(9),
        Class::Inside,
        name,
    )
}

/// LOW: before the pages of new records, with its name in the free room.
fn draw_low(
    alloc: Global,
    heap: &Heap,
    drawing: &mut Drawing,
    tops: &[u32],
    space: u8,
    area: AreaWord,
) -> Result<(), NoMemory> {
    let (page, column) = page_before(heap, space, area.low);
    let Some(top) = tops.get(page as usize) else {
        return Ok(());
    };
    let addr = heap.start(space).saturating_add(area.low);
    draw_bar(alloc, drawing, *top, column, "LOW", addr)?;
    if area.low.saturating_sub(area.front) < NAMED_ROOM {
        return Ok(());
    }
    let name = String::from_str(alloc, "LOW")?;
    drawing.label(
        column_x(column).saturating_sub(5),
        top.saturating_add(9),
        Class::Ending,
        name,
    )
}

/// FRONT and LOW of both spaces.
pub fn draw_marks(
    alloc: Global,
    heap: &Heap,
    drawing: &mut Drawing,
    tops: &[u32],
) -> Result<(), NoMemory> {
    for space in 0..2u8 {
        if let Some(area) = heap.area(space) {
            draw_front(alloc, heap, drawing, tops, space, area)?;
            draw_low(alloc, heap, drawing, tops, space, area)?;
        }
    }
    Ok(())
}
