//! The board and the registers, from which records can be reached.

use crate::class::Class;
use crate::drawing::{Drawing, End, Frame, LEFT, ROW, TALL, fits};
use crate::heap::{BOARD_WORDS, Heap};
use crate::links::end_at;
use crate::naming::{root_text, short_root_text};
use crate::pages::draw_state;
use heap_words::Word;
use plain_state::{NoMemory, REGISTERS};
use std::alloc::Global;

/// The width of a word of the board, and of a register.
const BOARD_CELL: u32 = ROW / BOARD_WORDS;

const REGISTER_CELL: u32 = ROW / REGISTERS as u32;

/// A line from a root to the record that it refers to.
fn draw_root_line(
    heap: &Heap,
    drawing: &mut Drawing,
    tops: &[u32],
    frame: Frame,
    word: u64,
) -> Result<(), NoMemory> {
    let Some(addr) = Word(word).as_pointer() else {
        return Ok(());
    };
    let Some(to) = end_at(heap, tops, addr) else {
        return Ok(());
    };
    let from = End {
        x: frame.x.saturating_add(frame.width / 2),
        top: frame.y,
        bottom: frame.y.saturating_add(frame.height),
    };
    let class = match heap.tagged(word) {
        Class::Old => Class::RootOld,
        _ => Class::RootNew,
    };
    drawing.arrow(from, to, class)
}

/// What a root holds, written into it in full or in short, as there is room.
fn draw_root_text(
    alloc: Global,
    heap: &Heap,
    drawing: &mut Drawing,
    frame: Frame,
    name: &str,
    number: u32,
    word: u64,
) -> Result<(), NoMemory> {
    let (x, y) = (frame.x.saturating_add(4), frame.y.saturating_add(12));
    let text = root_text(alloc, heap, name, number, word)?;
    if fits(&text, frame.width) {
        return drawing.label(x, y, Class::Small, text);
    }
    let text = short_root_text(alloc, heap, name, number, word)?;
    if fits(&text, frame.width) {
        return drawing.label(x, y, Class::Small, text);
    }
    Ok(())
}

/// A root, with what it holds, and a line to the record that it refers to.
fn draw_root(
    alloc: Global,
    heap: &Heap,
    drawing: &mut Drawing,
    tops: &[u32],
    frame: Frame,
    name: &str,
    number: u32,
    word: u64,
) -> Result<(), NoMemory> {
    let title = root_text(alloc, heap, name, number, word)?;
    drawing.titled_block(frame, heap.tagged(word), title)?;
    draw_root_text(alloc, heap, drawing, frame, name, number, word)?;
    draw_root_line(heap, drawing, tops, frame, word)
}

/// The words of the board.
pub fn draw_board(
    alloc: Global,
    heap: &Heap,
    drawing: &mut Drawing,
    tops: &[u32],
) -> Result<(), NoMemory> {
    draw_state(alloc, heap, drawing, heap.spaces.board_page(), TALL)?;
    for i in 0..BOARD_WORDS {
        let frame = Frame {
            x: LEFT + BOARD_CELL * i,
            y: drawing.bottom,
            width: BOARD_CELL,
            height: TALL,
        };
        let word = heap.word(heap.board().saturating_add(i));
        draw_root(alloc, heap, drawing, tops, frame, "", i, word)?;
    }
    drawing.down(TALL + 8);
    Ok(())
}

/// The registers of a mutator.
fn draw_mutator(
    alloc: Global,
    heap: &Heap,
    drawing: &mut Drawing,
    tops: &[u32],
    registers: &[u64],
) -> Result<(), NoMemory> {
    let mut number = 0u32;
    for word in registers {
        let frame = Frame {
            x: LEFT.saturating_add(REGISTER_CELL.saturating_mul(number)),
            y: drawing.bottom,
            width: REGISTER_CELL,
            height: TALL,
        };
        draw_root(alloc, heap, drawing, tops, frame, "r", number, *word)?;
        number = number.saturating_add(1);
    }
    drawing.down(TALL + 3);
    Ok(())
}

/// The registers of each mutator.
pub fn draw_registers(
    alloc: Global,
    heap: &Heap,
    drawing: &mut Drawing,
    tops: &[u32],
) -> Result<(), NoMemory> {
    let mut mutator = 0u32;
    for registers in heap.dump.registers.as_slice() {
        let text = format!(in alloc; "mutator {mutator}")?;
        let y = drawing.bottom.saturating_add(12);
        drawing.margin(y, Class::Small, text)?;
        draw_mutator(alloc, heap, drawing, tops, registers.as_slice())?;
        mutator = mutator.saturating_add(1);
    }
    drawing.down(8);
    Ok(())
}
