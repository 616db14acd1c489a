//! The lines of a text, and what one line says.

ghost use Rattle.std.specs.Prelude.{◌≡◌, ◌==◌, ◌∷◌, IfOk};
ghost use Rattle.std.specs.List.{slice_split};
ghost use Rattle.mutator_asm.specs.Instr.{instr_of};
ghost use Rattle.mutator_asm.specs.Line.{jump_of, register_jump_of, jz_of, jal_of, does_or, named_of, labelled_of, begins_of, schedules_of, unlabelled, line_with, line_from, line_of, lines_of};
ghost use Rattle.mutator_asm.specs.Token.{label_of};
ghost use Rattle.program_text.specs.Read.{word_view, line_view, lines_view, tokens_view};

use crate::items::read_item;
use crate::text::operands::{
    nothing, one_register, operand_register, register_number, register_operand,
    register_operand_register, register_two_operands, registers_operand_registers, three_registers,
    two_registers, two_registers_operand,
};
use crate::text::token::{is_name, label, put_tokens, register};
use mutator_asm::{Instr, Item, Jump, Mistake};
use std::alloc::{AllocError, Global};

/// What a line has beside its label.
#[derive(Drop)]
pub enum Word<'a> {
    /// Nothing.
    Nothing,
    /// `.mutator`, which begins a section: true where it is alone on its line, false where operands
    /// follow it.
    Begins(bool),
    /// Items of the schedule.
    Schedules(Vec<Item>),
    /// An instruction.
    Does(Instr),
    /// A jump, and the label that it names.
    Jumps(Jump, &'a [u8]),
    /// Something that is wrong wherever it stands.
    Bad(Mistake),
}

/// A line.
#[derive(Drop)]
pub struct Line<'a> {
    pub label: Option<&'a [u8]>,
    pub word: Word<'a>,
}

impl<'a> Line<'a> {
    ghost use Rattle.std.specs.Prelude.{◌≡◌};
    ghost use Rattle.mutator_asm.specs.Text.{begins_section, counts, items_on};
    ghost use Rattle.program_text.specs.Read.{line_view};

    /// Whether it begins a section.
    pub fn begins(&self) -> bool
        ensures { result ≡ begins_section (line_view self.now) }
    {
        matches!(self.word, Word::Begins(_))
    }

    /// Whether it has an instruction.
    pub fn counts(&self) -> bool
        ensures { result ≡ counts (line_view self.now) }
    {
        matches!(self.word, Word::Does(_) | Word::Jumps(_, _))
    }

    /// The items of the schedule that stand on it.
    pub fn items(&self) -> &[Item]
        ensures { result.now ≡ items_on (line_view self.now) }
    {
        match &self.word {
            Word::Schedules(items) => items.as_slice(),
            _ => &[],
        }
    }
}

/// A jump to the label that is its last operand.
fn jump<'a>(jump: Jump, operands: &[&'a [u8]]) -> Word<'a>
    ensures { word_view result ≡ jump_of jump (tokens_view operands.now) }
{
    match operands {
        [label] if is_name(label) => Word::Jumps(jump, label),
        _ => Word::Bad(Mistake::BadOperand),
    }
}

/// A jump whose register was read, to the label that is its last operand.
fn register_jump<'a>(read: Result<Jump, Mistake>, operands: &[&'a [u8]]) -> Word<'a>
    ensures { word_view result ≡ register_jump_of read (tokens_view operands.now) }
{
    match read {
        Ok(read) => jump(read, operands),
        Err(mistake) => Word::Bad(mistake),
    }
}

/// `jz ra L`, from the operands.
fn jz<'a>(operands: &[&'a [u8]]) -> Word<'a>
    ensures { word_view result ≡ jz_of (tokens_view operands.now) }
{
    match operands {
        [] => Word::Bad(Mistake::BadOperand),
        [a, labels @ ..] => register_jump(register(a).map(Jump::IfZero), labels),
    }
}

/// `jal rd L`, from the operands.
fn jal<'a>(operands: &[&'a [u8]]) -> Word<'a>
    ensures { word_view result ≡ jal_of (tokens_view operands.now) }
{
    match operands {
        [] => Word::Bad(Mistake::BadOperand),
        [d, labels @ ..] => register_jump(register(d).map(Jump::Link), labels),
    }
}

/// The instruction of a name that is no jump to a label.
#[tactic(auto, unfolding(mutator_asm::specs::Instr::instr_of))]
fn instr(name: &[u8], operands: &[&[u8]]) -> Result<Instr, Mistake>
    ensures { result ≡ instr_of name.now (tokens_view operands.now) }
{
    match name {
        b"li" => register_number(operands, Instr::Li),
        b"mov" => two_registers(operands, Instr::Mov),
        b"add" => three_registers(operands, Instr::Add),
        b"sub" => three_registers(operands, Instr::Sub),
        b"mul" => three_registers(operands, Instr::Mul),
        b"div" => three_registers(operands, Instr::Div),
        b"rem" => three_registers(operands, Instr::Rem),
        b"lt" => three_registers(operands, Instr::Lt),
        b"eq" => three_registers(operands, Instr::Eq),
        b"jr" => one_register(operands, Instr::Jr),
        b"new" => register_operand(operands, Instr::New),
        b"raw" => register_operand(operands, Instr::Raw),
        b"mix" => register_two_operands(operands, Instr::Mix),
        b"weak" => two_registers(operands, Instr::Weak),
        b"ld" => two_registers_operand(operands, Instr::Ld),
        b"st" => register_operand_register(operands, Instr::St),
        b"cas" => registers_operand_registers(operands, Instr::Cas),
        b"len" => two_registers(operands, Instr::Len),
        b"isp" => two_registers(operands, Instr::Isp),
        b"get" => register_operand(operands, Instr::Get),
        b"put" => operand_register(operands, Instr::Put),
        b"swap" => register_operand(operands, Instr::Swap),
        b"out" => one_register(operands, Instr::Out),
        b"snap" => nothing(operands, Instr::Snap),
        b"halt" => nothing(operands, Instr::Halt),
        _ => Err(Mistake::UnknownInstr),
    }
}

/// An instruction, or what is wrong with it.
fn does<'a>(instr: Result<Instr, Mistake>) -> Word<'a>
    ensures { word_view result ≡ does_or instr }
{
    match instr {
        Ok(instr) => Word::Does(instr),
        Err(mistake) => Word::Bad(mistake),
    }
}

/// A name with its operands.
#[tactic(auto, unfolding(mutator_asm::specs::Line::named_of))]
fn named<'a>(name: &[u8], operands: &[&'a [u8]]) -> Word<'a>
    ensures { word_view result ≡ named_of name.now (tokens_view operands.now) }
{
    match name {
        b"jmp" => jump(Jump::Always, operands),
        b"jz" => jz(operands),
        b"jal" => jal(operands),
        _ => does(instr(name, operands)),
    }
}

/// What stands behind a label.
fn labelled<'a>(tokens: &[&'a [u8]]) -> Word<'a>
    ensures { word_view result ≡ labelled_of (tokens_view tokens.now) }
{
    match tokens {
        [] => Word::Nothing,
        [name, operands @ ..] => named(name, operands),
    }
}

/// `.mutator`, from what stands behind it.
fn begins<'a>(operands: &[&'a [u8]]) -> Word<'a>
    ensures { word_view result ≡ begins_of (tokens_view operands.now) }
{
    match operands {
        [] => Word::Begins(true),
        _ => Word::Begins(false),
    }
}

/// `.schedule`, from what stands behind it.
#[tactic(auto, unfolding(mutator_asm::specs::Line::schedules_of))]
fn schedules<'a>(alloc: Global, operands: &[&'a [u8]]) -> Result<Word<'a>, AllocError>
    ensures { IfOk result (λ w. word_view w ≡ schedules_of (tokens_view operands.now)) }
{
    if operands.is_empty() {
        return Ok(Word::Bad(Mistake::BadSchedule));
    }
    let mut items = Vec::new(alloc);
    for operand in operands {
        match read_item(operand) {
            Some(item) => items.push(item)?,
            None => return Ok(Word::Bad(Mistake::BadSchedule)),
        }
    }
    Ok(Word::Schedules(items))
}

/// A line without a label.
fn plain<'a>(word: Word<'a>) -> Line<'a>
    ensures { line_view result ≡ unlabelled (word_view word.entry) }
{
    Line { label: None, word }
}

/// A line that is no directive, from its first token and the others.
fn other<'a>(first: &'a [u8], rest: &[&'a [u8]]) -> Line<'a>
    ensures { line_view result ≡ line_with (label_of first.now) first.now (tokens_view rest.now) }
{
    match label(first) {
        Some(name) => Line {
            label: Some(name),
            word: labelled(rest),
        },
        None => plain(named(first, rest)),
    }
}

/// A line, from its first token and the others.
fn line_by_first<'a>(
    alloc: Global,
    first: &'a [u8],
    rest: &[&'a [u8]],
) -> Result<Line<'a>, AllocError>
    ensures { IfOk result (λ l. line_view l ≡ line_from (first.now ∷ tokens_view rest.now)) }
{
    match first {
        b".mutator" => Ok(plain(begins(rest))),
        b".schedule" => Ok(plain(schedules(alloc, rest)?)),
        _ => Ok(other(first, rest)),
    }
}

/// What the tokens of a line say.
fn line_from<'a>(alloc: Global, tokens: &[&'a [u8]]) -> Result<Line<'a>, AllocError>
    ensures { IfOk result (λ l. line_view l ≡ line_from (tokens_view tokens.now)) }
{
    match tokens {
        [] => Ok(plain(Word::Nothing)),
        [first, rest @ ..] => line_by_first(alloc, first, rest),
    }
}

/// What a line says. Its tokens are put into a list, in place of those of the line before.
#[tactic(auto, unfolding(mutator_asm::specs::Line::line_of))]
fn read_line<'a>(
    alloc: Global,
    tokens: &mut Vec<&'a [u8]>,
    bytes: &'a [u8],
) -> Result<Line<'a>, AllocError>
    ensures { IfOk result (λ l. line_view l ≡ line_of bytes.now) }
{
    put_tokens(tokens, bytes)?;
    line_from(alloc, tokens.as_slice())
}

/// The bytes of each line of a text.
fn split<'a>(alloc: Global, text: &'a [u8]) -> Result<Vec<&'a [u8]>, AllocError>
    ensures { IfOk result (λ v. tokens_view v.items ≡ slice_split (λ b. b == 10) text.now) }
{
    text.split(|b| *b == b'\n').collect(alloc)
}

/// The lines of a text.
#[tactic(auto, unfolding(mutator_asm::specs::Line::lines_of))]
pub fn lines<'a>(alloc: Global, text: &'a [u8]) -> Result<Vec<Line<'a>>, AllocError>
    ensures { IfOk result (λ v. lines_view v.items ≡ lines_of text.now) }
{
    let mut lines = Vec::new(alloc);
    let mut tokens = Vec::new(alloc);
    for bytes in &split(alloc, text)? {
        lines.push(read_line(alloc, &mut tokens, bytes)?)?;
    }
    Ok(lines)
}
