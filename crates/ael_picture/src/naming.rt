//! What is told of words and records.

use crate::class::Class;
use crate::heap::{Heap, Meaning};
use heap_words::{Kind, Word};
use record_layout::{Header, read_busy, read_forward};
use space_map::PAGE_WORDS;
use std::alloc::{AllocError, Global};

/// A record's name: the mutator that made it, and its number among those that this one made.
fn push_name(text: &mut String, heap: &Heap, addr: u32) -> Result<(), AllocError> {
    match heap.header(addr) {
        Some(header) => write!(text, "{}.{}", header.mutator, header.serial),
        None => text.push_str("a record"),
    }
}

/// What a pointer refers to.
fn push_target(text: &mut String, heap: &Heap, addr: u32) -> Result<(), AllocError> {
    push_name(text, heap, addr)?;
    write!(text, " at {addr}")
}

/// What a tagged word holds.
fn push_tagged(text: &mut String, heap: &Heap, word: u64) -> Result<(), AllocError> {
    if let Some(number) = Word(word).as_number() {
        return write!(text, "{number}");
    }
    match Word(word).as_pointer() {
        Some(addr) => push_target(text, heap, addr),
        None => write!(text, "the word {word}"),
    }
}

/// How many words of its own a record has, and of which kind they are.
fn push_kind(text: &mut String, header: Header) -> Result<(), AllocError> {
    let len = header.len;
    match header.kind {
        Kind::Fields => write!(text, "{len} fields"),
        Kind::Raw => write!(text, "{len} raw words"),
        Kind::Mixed => write!(text, "{} mixed words", len.saturating_sub(1)),
        Kind::Weak => text.push_str("a weak cell"),
    }
}

/// A record by its name, its kind and its length.
fn push_record(text: &mut String, heap: &Heap, addr: u32) -> Result<(), AllocError> {
    push_name(text, heap, addr)?;
    let Some(header) = heap.header(addr) else {
        return Ok(());
    };
    text.push_str(", ")?;
    push_kind(text, header)
}

/// A word of a record, by its number.
fn push_number(text: &mut String, kind: Kind, number: u32) -> Result<(), AllocError> {
    match kind {
        Kind::Mixed if number == 0 => text.push_str("the count of the fields of "),
        Kind::Mixed => write!(text, "word {} of ", number.saturating_sub(1)),
        Kind::Weak if number == 0 => text.push_str("the target of the weak cell "),
        Kind::Weak => text.push_str("the link of the weak cell "),
        _ => write!(text, "word {number} of "),
    }
}

/// A word of a record, and what it holds.
fn push_member(
    text: &mut String,
    heap: &Heap,
    addr: u32,
    meaning: Meaning,
) -> Result<(), AllocError> {
    let Some(header) = heap.header(meaning.owner) else {
        return Ok(());
    };
    let number = addr.saturating_sub(meaning.owner).saturating_sub(1);
    push_number(text, header.kind, number)?;
    push_name(text, heap, meaning.owner)?;
    text.push_str(": ")?;
    let word = heap.word(addr);
    if meaning.class == Class::Raw {
        return write!(text, "{word}");
    }
    push_tagged(text, heap, word)
}

/// Where a record was copied.
fn push_forward(text: &mut String, heap: &Heap, addr: u32) -> Result<(), AllocError> {
    text.push_str("forward of ")?;
    push_name(text, heap, addr)?;
    match read_forward(heap.word(addr)) {
        Some(forward) => write!(text, ", which was copied to {}", forward.addr),
        None => Ok(()),
    }
}

/// Who copies a record.
fn push_busy(text: &mut String, heap: &Heap, addr: u32) -> Result<(), AllocError> {
    push_name(text, heap, addr)?;
    match read_busy(heap.word(addr)) {
        Some(busy) => write!(text, ", which worker {} is copying", busy.worker),
        None => Ok(()),
    }
}

/// All that is known of a word of a space.
pub fn word_title(
    alloc: Global,
    heap: &Heap,
    addr: u32,
    meaning: Meaning,
) -> Result<String, AllocError> {
    let mut text = format!(in alloc; "page {}, address {addr}: ", addr / PAGE_WORDS)?;
    match meaning.class {
        Class::Header => {
            text.push_str("header of ")?;
            push_record(&mut text, heap, addr)?;
        }
        Class::Forward | Class::Faded => push_forward(&mut text, heap, addr)?,
        Class::Busy => push_busy(&mut text, heap, addr)?,
        _ => push_member(&mut text, heap, addr, meaning)?,
    }
    Ok(text)
}

/// What is written above a record.
pub fn record_text(alloc: Global, heap: &Heap, addr: u32) -> Result<String, AllocError> {
    let mut text = String::new(alloc);
    push_record(&mut text, heap, addr)?;
    Ok(text)
}

/// The same, if there is little room.
pub fn name_text(alloc: Global, heap: &Heap, addr: u32) -> Result<String, AllocError> {
    let mut text = String::new(alloc);
    push_name(&mut text, heap, addr)?;
    Ok(text)
}

/// A register or a word of the board, with what it holds.
pub fn root_text(
    alloc: Global,
    heap: &Heap,
    name: &str,
    number: u32,
    word: u64,
) -> Result<String, AllocError> {
    let mut text = format!(in alloc; "{name}{number}: ")?;
    push_tagged(&mut text, heap, word)?;
    Ok(text)
}

/// The same without an address, if there is little room.
pub fn short_root_text(
    alloc: Global,
    heap: &Heap,
    name: &str,
    number: u32,
    word: u64,
) -> Result<String, AllocError> {
    let mut text = format!(in alloc; "{name}{number}: ")?;
    match Word(word).as_pointer() {
        Some(addr) => push_name(&mut text, heap, addr)?,
        None => push_tagged(&mut text, heap, word)?,
    }
    Ok(text)
}

fn kind_letter(kind: Kind) -> &'static str {
    match kind {
        Kind::Fields => "F",
        Kind::Raw => "R",
        Kind::Mixed => "M",
        Kind::Weak => "W",
    }
}

/// A number, if it is so short that a word has room for it. A 0 is not written.
fn push_short(text: &mut String, number: u64) -> Result<(), AllocError> {
    if number == 0 || number > 999 {
        return Ok(());
    }
    write!(text, "{number}")
}

/// What is written into a word.
pub fn inside_text(
    alloc: Global,
    heap: &Heap,
    addr: u32,
    class: Class,
) -> Result<String, AllocError> {
    let mut text = String::new(alloc);
    let word = heap.word(addr);
    match class {
        Class::Header => {
            if let Some(header) = heap.header(addr) {
                text.push_str(kind_letter(header.kind))?;
            }
        }
        Class::Number => push_short(&mut text, Word(word).as_number().unwrap_or(0))?,
        Class::Raw => push_short(&mut text, word)?,
        Class::Forward | Class::Faded => text.push_str("→")?,
        Class::Busy => text.push_str("…")?,
        _ => {}
    }
    Ok(text)
}
