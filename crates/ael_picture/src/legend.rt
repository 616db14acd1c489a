//! What stands above the heap: the counts of the gate, what the colours mean, and which lines are shown.

use crate::choice::Choice;
use crate::class::Class;
use crate::drawing::{Drawing, Frame, LEFT, ROW};
use crate::heap::Heap;
use crate::shape::Shape;
use plain_state::NoMemory;
use space_map::GateWord;
use std::alloc::Global;

/// Where the rows begin.
const MARGIN: u32 = 8;

/// The height of a row.
const LINE: u32 = 17;

/// The width of a count, and of a colour with its name.
const COUNT: u32 = 180;

const COLOUR: u32 = 142;

/// A count with its name, and what it means.
fn draw_count(
    alloc: Global,
    drawing: &mut Drawing,
    column: u32,
    name: &str,
    count: u64,
    title: &str,
) -> Result<(), NoMemory> {
    let x = MARGIN.saturating_add(COUNT.saturating_mul(column));
    let y = drawing.bottom.saturating_add(12);
    let text = format!(in alloc; "{name}: {count}")?;
    let title = String::from_str(alloc, title)?;
    drawing.titled_label(x, y, text, title)
}

/// What the gate counts of the mutators.
fn draw_gate(alloc: Global, drawing: &mut Drawing, gate: GateWord) -> Result<(), NoMemory> {
    let counts = [
        (
            "epoch",
            u64::from(gate.epoch),
            "how many flips were made; each exchanged the spaces",
        ),
        (
            "mutators attached",
            u64::from(gate.live),
            "mutators that have begun and have not left",
        ),
        (
            "running",
            u64::from(gate.running),
            "mutators that don't wait at the gate for a flip",
        ),
        (
            "behind",
            u64::from(gate.behind),
            "mutators whose registers may still lead into the old space since the last flip",
        ),
        (
            "left",
            u64::from(gate.left),
            "mutators that have ended and left",
        ),
        (
            "flip requested",
            u64::from(gate.request),
            "1 if a mutator has asked for a flip, and all are to stop for it",
        ),
    ];
    let mut column = 0u32;
    for (name, count, title) in &counts {
        draw_count(alloc, drawing, column, name, *count, title)?;
        column = column.saturating_add(1);
    }
    Ok(())
}

/// The words that are owed for copies.
fn owed(heap: &Heap) -> u64 {
    match heap.area(heap.spaces.to_space(heap.epoch)) {
        Some(area) => u64::from(area.owed),
        None => 0,
    }
}

/// The counts of the gate, and the words that are owed.
pub fn draw_counts(alloc: Global, heap: &Heap, drawing: &mut Drawing) -> Result<(), NoMemory> {
    if let Some(gate) = heap.gate() {
        draw_gate(alloc, drawing, gate)?;
    }
    draw_count(
        alloc,
        drawing,
        6,
        "words owed",
        owed(heap),
        "the most words that may still have to be copied; as many are kept free",
    )?;
    drawing.down(LINE + 6);
    Ok(())
}

/// A text in the legend.
fn draw_text(alloc: Global, drawing: &mut Drawing, x: u32, text: &str) -> Result<(), NoMemory> {
    let text = String::from_str(alloc, text)?;
    drawing.label(x, drawing.bottom.saturating_add(11), Class::Plain, text)
}

/// A row of colours, each beside its name, with what is written into such words.
fn draw_colours(
    alloc: Global,
    drawing: &mut Drawing,
    row: &[(Class, &str, &str)],
) -> Result<(), NoMemory> {
    let mut x = LEFT;
    for (class, inside, name) in row {
        let frame = Frame {
            x,
            y: drawing.bottom,
            width: 18,
            height: 13,
        };
        drawing.block(frame, *class)?;
        let text = String::from_str(alloc, inside)?;
        drawing.label(
            x.saturating_add(9),
            drawing.bottom.saturating_add(10),
            Class::Inside,
            text,
        )?;
        draw_text(alloc, drawing, x.saturating_add(22), name)?;
        x = x.saturating_add(COLOUR);
    }
    drawing.down(LINE);
    Ok(())
}

/// The colours of words.
const WORD_COLOURS: [(Class, &str, &str); 8] = [
    (Class::Header, "F", "header, by its kind"),
    (Class::Number, "7", "number"),
    (Class::Raw, "7", "raw word"),
    (Class::New, "", "to the new space"),
    (Class::Old, "", "to the old space"),
    (Class::Busy, "…", "being copied"),
    (Class::Forward, "→", "forward to the copy"),
    (Class::Faded, "→", "once all is copied"),
];

/// The colours of pages, and of lines in them.
const PAGE_COLOURS: [(Class, &str, &str); 6] = [
    (Class::Open, "", "open page"),
    (Class::Scanning, "", "page being scanned"),
    (Class::Earlier, "", "closed by a flip"),
    (Class::Unset, "", "page not opened yet"),
    (Class::Mark, "", "FRONT or LOW"),
    (Class::Free, "", "no record"),
];

/// Which lines may be shown, each with its name and the width of that.
const CHOICES: [(Choice, &str, u32); 5] = [
    (Choice::All, "all", 40),
    (Choice::Fields, "from fields", 90),
    (Choice::Roots, "from registers and the board", 190),
    (Choice::Copies, "from forwards", 110),
    (Choice::Nothing, "none", 60),
];

/// Links that choose which lines are shown.
fn draw_choices(alloc: Global, drawing: &mut Drawing) -> Result<(), NoMemory> {
    let mut x = LEFT;
    draw_text(alloc, drawing, MARGIN, "lines that are shown:")?;
    for (choice, name, width) in &CHOICES {
        let text = String::from_str(alloc, name)?;
        drawing.add(Shape::Switch {
            x,
            y: drawing.bottom.saturating_add(11),
            choice: *choice,
            text,
        })?;
        x = x.saturating_add(*width);
    }
    draw_text(
        alloc,
        drawing,
        x,
        "green: into the new space; red, dashed: into the old one; dotted: from a weak cell; violet: to a copy",
    )?;
    drawing.down(LINE);
    Ok(())
}

/// What the colours mean, and which lines are shown.
pub fn draw_legend(alloc: Global, drawing: &mut Drawing) -> Result<(), NoMemory> {
    draw_text(alloc, drawing, MARGIN, "words:")?;
    draw_colours(alloc, drawing, &WORD_COLOURS)?;
    draw_text(alloc, drawing, MARGIN, "pages:")?;
    draw_colours(alloc, drawing, &PAGE_COLOURS)?;
    draw_choices(alloc, drawing)?;
    drawing.down(8);
    Ok(())
}
