//! The pages of the spaces, one below the other.

use crate::class::Class;
use crate::drawing::{CELL, Drawing, Frame, LEFT, ROW, TALL, column_x, fits};
use crate::heap::{Heap, Meaning, meaning_at};
use crate::naming::{inside_text, name_text, record_text, word_title};
use mmu_model::read as read_page;
use plain_state::NoMemory;
use space_map::{PAGE_WORDS, PageWord};
use std::alloc::{AllocError, Global};

/// The height of a page that has no records, and of each page if there are many.
const LOW_PAGE: u32 = 11;

const THIN_PAGE: u32 = 3;

/// The room for the names of records above their words.
const NAMES: u32 = 12;

/// Up to so many pages a space, each word is drawn by itself.
const MOST_PAGES_BY_WORD: u32 = 64;

/// If pages are thin, one of so many has its number beside it.
const NUMBERED: u32 = 8;

/// Whether the heap is so small that each word is drawn by itself.
pub fn is_by_word(heap: &Heap) -> bool {
    heap.spaces.pages() <= MOST_PAGES_BY_WORD
}

/// What a page's word says.
fn page_class(heap: &Heap, page: u32) -> (Class, Option<u8>) {
    if page > heap.spaces.board_page() {
        return (Class::Unset, None);
    }
    match read_page(heap.shared(heap.spaces.page_place(page))) {
        Some(PageWord::Open(epoch)) if epoch == heap.epoch => (Class::Open, None),
        Some(PageWord::Scanning(epoch, worker)) if epoch == heap.epoch => {
            (Class::Scanning, Some(worker))
        }
        Some(PageWord::Open(_)) => (Class::Earlier, None),
        Some(PageWord::Scanning(_, _)) => (Class::Earlier, None),
        _ => (Class::Unset, None),
    }
}

/// The name of a page or of the board, with what its word says.
fn page_text(alloc: Global, heap: &Heap, page: u32) -> Result<String, AllocError> {
    let mut text = if page == heap.spaces.board_page() {
        String::from_str(alloc, "board")?
    } else {
        format!(in alloc; "page {page}")?
    };
    match page_class(heap, page) {
        (Class::Open, _) => text.push_str(" open")?,
        (Class::Scanning, Some(worker)) => write!(text, " scanned by {worker}")?,
        (Class::Earlier, _) => text.push_str(" closed")?,
        _ => {}
    }
    Ok(text)
}

/// What a page's word says: a box before its words, and if there is room a text beside it.
pub fn draw_state(
    alloc: Global,
    heap: &Heap,
    drawing: &mut Drawing,
    page: u32,
    height: u32,
) -> Result<(), NoMemory> {
    let frame = Frame {
        x: LEFT - 14,
        y: drawing.bottom,
        width: 10,
        height,
    };
    let (class, _) = page_class(heap, page);
    let title = page_text(alloc, heap, page)?;
    drawing.titled_block(frame, class, title)?;
    if height > THIN_PAGE || page % NUMBERED == 0 {
        let text = page_text(alloc, heap, page)?;
        let y = drawing.bottom.saturating_add(height.saturating_sub(2));
        drawing.margin(y, Class::Small, text)?;
    }
    Ok(())
}

/// Whether a page has a word of a record.
fn has_records(words: &[Meaning], first: u32) -> bool {
    for i in 0..PAGE_WORDS {
        if meaning_at(words, first.saturating_add(i)).class != Class::Free {
            return true;
        }
    }
    false
}

/// A record's name above its words, as long as there is room for it.
fn draw_name(
    alloc: Global,
    heap: &Heap,
    drawing: &mut Drawing,
    addr: u32,
    x: u32,
) -> Result<(), NoMemory> {
    let Some(found) = heap.found(addr) else {
        return Ok(());
    };
    let left = PAGE_WORDS.saturating_sub(addr % PAGE_WORDS);
    let room = CELL.saturating_mul(found.len.saturating_add(1).min(left));
    let y = drawing.bottom.saturating_sub(2);
    let text = record_text(alloc, heap, addr)?;
    if fits(&text, room) {
        return drawing.label(x, y, Class::Small, text);
    }
    let name = name_text(alloc, heap, addr)?;
    if fits(&name, room) {
        return drawing.label(x, y, Class::Small, name);
    }
    Ok(())
}

/// A word of a record, with what it holds if that is short.
fn draw_word(
    alloc: Global,
    heap: &Heap,
    drawing: &mut Drawing,
    addr: u32,
    meaning: Meaning,
) -> Result<(), NoMemory> {
    let x = column_x(addr % PAGE_WORDS);
    let frame = Frame {
        x,
        y: drawing.bottom,
        width: CELL,
        height: TALL,
    };
    let title = word_title(alloc, heap, addr, meaning)?;
    drawing.titled_block(frame, meaning.class, title)?;
    let text = inside_text(alloc, heap, addr, meaning.class)?;
    if !text.is_empty() {
        let y = drawing.bottom.saturating_add(11);
        drawing.label(x.saturating_add(CELL / 2), y, Class::Inside, text)?;
    }
    if meaning.owner == addr {
        draw_name(alloc, heap, drawing, addr, x)?;
    }
    Ok(())
}

/// Words of a page that no record has, from one to before another, as one box.
fn draw_free(
    alloc: Global,
    drawing: &mut Drawing,
    first: u32,
    from: u32,
    to: u32,
) -> Result<(), NoMemory> {
    if from >= to {
        return Ok(());
    }
    let frame = Frame {
        x: column_x(from),
        y: drawing.bottom,
        width: CELL.saturating_mul(to - from),
        height: TALL,
    };
    let (from, last) = (first.saturating_add(from), first.saturating_add(to - 1));
    let title = format!(in alloc;
        "page {}, addresses {from} to {last}: no record",
        first / PAGE_WORDS
    )?;
    drawing.titled_block(frame, Class::Free, title)
}

/// Words of a page from one to before another, as one box.
fn draw_run(
    drawing: &mut Drawing,
    from: u32,
    to: u32,
    height: u32,
    class: Class,
) -> Result<(), NoMemory> {
    if from >= to {
        return Ok(());
    }
    let frame = Frame {
        x: column_x(from),
        y: drawing.bottom,
        width: CELL.saturating_mul(to - from),
        height,
    };
    drawing.block(frame, class)
}

/// The words of a page, each by itself, but for those that no record has.
fn draw_words(
    alloc: Global,
    heap: &Heap,
    words: &[Meaning],
    drawing: &mut Drawing,
    first: u32,
) -> Result<(), NoMemory> {
    let mut start = 0;
    for i in 0..PAGE_WORDS {
        let addr = first.saturating_add(i);
        let meaning = meaning_at(words, addr);
        if meaning.class != Class::Free {
            draw_free(alloc, drawing, first, start, i)?;
            draw_word(alloc, heap, drawing, addr, meaning)?;
            start = i + 1;
        }
    }
    draw_free(alloc, drawing, first, start, PAGE_WORDS)
}

/// The words of a page, as bars of words of one class.
fn draw_bars(
    words: &[Meaning],
    drawing: &mut Drawing,
    first: u32,
    height: u32,
) -> Result<(), NoMemory> {
    let mut start = 0;
    for i in 0..PAGE_WORDS {
        let class = meaning_at(words, first.saturating_add(i)).class;
        let next = meaning_at(words, first.saturating_add(i + 1)).class;
        if i + 1 == PAGE_WORDS || next != class {
            draw_run(drawing, start, i + 1, height, class)?;
            start = i + 1;
        }
    }
    Ok(())
}

/// A page whose words are drawn each by itself, below the names of its records; notes where its words are.
fn draw_tall_page(
    alloc: Global,
    heap: &Heap,
    words: &[Meaning],
    drawing: &mut Drawing,
    tops: &mut Vec<u32>,
    page: u32,
) -> Result<(), NoMemory> {
    drawing.down(NAMES);
    tops.push(drawing.bottom)?;
    draw_state(alloc, heap, drawing, page, TALL)?;
    let first = page.saturating_mul(PAGE_WORDS);
    draw_words(alloc, heap, words, drawing, first)?;
    drawing.down(TALL + 2);
    Ok(())
}

/// A page whose words are drawn as bars; notes where they are.
fn draw_flat_page(
    alloc: Global,
    heap: &Heap,
    words: &[Meaning],
    drawing: &mut Drawing,
    tops: &mut Vec<u32>,
    page: u32,
) -> Result<(), NoMemory> {
    let height = if is_by_word(heap) {
        LOW_PAGE
    } else {
        THIN_PAGE
    };
    tops.push(drawing.bottom)?;
    draw_state(alloc, heap, drawing, page, height)?;
    draw_bars(words, drawing, page.saturating_mul(PAGE_WORDS), height)?;
    drawing.down(height.saturating_add(1));
    Ok(())
}

/// A page.
fn draw_page(
    alloc: Global,
    heap: &Heap,
    words: &[Meaning],
    drawing: &mut Drawing,
    tops: &mut Vec<u32>,
    page: u32,
) -> Result<(), NoMemory> {
    if is_by_word(heap) && has_records(words, page.saturating_mul(PAGE_WORDS)) {
        draw_tall_page(alloc, heap, words, drawing, tops, page)
    } else {
        draw_flat_page(alloc, heap, words, drawing, tops, page)
    }
}

/// The height of the words of a page that has records.
pub fn record_height(heap: &Heap) -> u32 {
    if is_by_word(heap) { TALL } else { THIN_PAGE }
}

/// Which pages are not in use yet.
fn unused_text(alloc: Global, first: u32, last: u32) -> Result<String, AllocError> {
    if first == last {
        return format!(in alloc; "page {first} is not in use yet");
    }
    format!(in alloc; "pages {first} to {last} are not in use yet")
}

/// The pages from one to before another, which are not in use yet: one box for all of them.
fn draw_unused(
    alloc: Global,
    drawing: &mut Drawing,
    tops: &mut Vec<u32>,
    first: u32,
    end: u32,
) -> Result<(), NoMemory> {
    if first >= end {
        return Ok(());
    }
    for _ in first..end {
        tops.push(drawing.bottom)?;
    }
    let frame = Frame {
        x: LEFT,
        y: drawing.bottom,
        width: ROW,
        height: TALL,
    };
    drawing.block(frame, Class::Unset)?;
    let text = unused_text(alloc, first, end - 1)?;
    let y = drawing.bottom.saturating_add(12);
    drawing.label(LEFT + 4, y, Class::Plain, text)?;
    drawing.down(TALL + 1);
    Ok(())
}

/// A space: its pages one below the other, those in use first.
pub fn draw_pages(
    alloc: Global,
    heap: &Heap,
    words: &[Meaning],
    drawing: &mut Drawing,
    tops: &mut Vec<u32>,
    space: u8,
) -> Result<(), NoMemory> {
    let pages = heap.spaces.pages();
    let first = pages.saturating_mul(u32::from(space));
    let unused = first.saturating_add(heap.in_use(space));
    for page in first..unused {
        draw_page(alloc, heap, words, drawing, tops, page)?;
    }
    draw_unused(alloc, drawing, tops, unused, first.saturating_add(pages))?;
    drawing.down(8);
    Ok(())
}
