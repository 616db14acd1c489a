use super::{program, repeated};
use crate::asserting::assert_same;
use mutator_asm::{Instr, Item, Operand, Program};
use program_text::{AsmError, assemble, list};
use std::alloc::Global;
use std::process::Abort;

/// The number and the line of a text's error, or 0 and 0 where it has none.
fn fault_of(alloc: Global, text: &str) -> (u8, u32) {
    if text.len() >= 1 << 31 {
        return (254, 0);
    }
    match assemble(alloc, text.as_bytes()) {
        Ok(_) => (0, 0),
        Err(AsmError::Text { no, line }) => (no, line),
        Err(AsmError::NoMemory) => (255, 0),
    }
}

/// A text with each instruction.
const EACH_INSTRUCTION: &str =
    ".mutator\nli r1 7\nmov r2 r1\nadd r0 r1 r2\nsub r0 r1 r2\nmul r0 r1 r2\ndiv r0 r1 r2\nrem r0 r1 r2\nlt r0 r1 r2\neq r0 r1 r2\njmp end\njz r1 end\njal r7 end\njr r3\nnew r0 2\nraw r0 r1\nmix r0 2 r1\nld r2 r0 1\nst r0 1 r7\ncas r3 r0 r1 r2 r7\nlen r1 r0\nisp r1 r0\nget r1 15\nput r2 r1\nswap r1 0\nend: out r2\nsnap\nhalt\n";

/// Its instructions.
const INSTRUCTIONS: [Instr; 27] = [
    Instr::Li(1, 7),
    Instr::Mov(2, 1),
    Instr::Add(0, 1, 2),
    Instr::Sub(0, 1, 2),
    Instr::Mul(0, 1, 2),
    Instr::Div(0, 1, 2),
    Instr::Rem(0, 1, 2),
    Instr::Lt(0, 1, 2),
    Instr::Eq(0, 1, 2),
    Instr::Jmp(24),
    Instr::Jz(1, 24),
    Instr::Jal(7, 24),
    Instr::Jr(3),
    Instr::New(0, Operand::Number(2)),
    Instr::Raw(0, Operand::Reg(1)),
    Instr::Mix(0, Operand::Number(2), Operand::Reg(1)),
    Instr::Ld(2, 0, Operand::Number(1)),
    Instr::St(0, Operand::Number(1), 7),
    Instr::Cas(3, 0, Operand::Reg(1), 2, 7),
    Instr::Len(1, 0),
    Instr::Isp(1, 0),
    Instr::Get(1, Operand::Number(15)),
    Instr::Put(Operand::Reg(2), 1),
    Instr::Swap(1, Operand::Number(0)),
    Instr::Out(2),
    Instr::Snap,
    Instr::Halt,
];

#[test]
fn a_text_gives_its_instructions(rt: HostRuntime) {
    let program = program(&rt, rt.alloc(), EACH_INSTRUCTION);
    assert_same(
        &rt,
        &program.code.sections()[0].as_slice(),
        &INSTRUCTIONS.as_slice(),
    );
    assert_same(&rt, &program.instr(0, 9), &Some(Instr::Jmp(24)));
}

/// Texts, each with the instructions of its one section.
const SECTIONS: [(&str, &[Instr]); 7] = [
    (".mutator", &[]),
    (".mutator\r\n\tli r0 0007\r\n", &[Instr::Li(0, 7)]),
    (
        "\n .mutator ; first\nli r7 4611686018427387903",
        &[Instr::Li(7, (1 << 62) - 1)],
    ),
    (".mutator\nl: jmp l ; x", &[Instr::Jmp(0)]),
    (
        ".mutator\njmp l\n\n; l: no\nl:\n\nhalt\n",
        &[Instr::Jmp(1), Instr::Halt],
    ),
    (
        ".mutator\njmp end\nhalt;x\nend:",
        &[Instr::Jmp(2), Instr::Halt],
    ),
    (
        ".mutator\nr1: jz r1 r1\nhalt: jal r0 halt\n_9a: jmp _9a",
        &[Instr::Jz(1, 0), Instr::Jal(0, 1), Instr::Jmp(2)],
    ),
];

/// The program has one section, of these instructions, and no schedule.
fn check_program(rt: &impl Abort, text: &str, program: &Program, wanted: &[Instr]) {
    assert_same(rt, &(text, program.code.len()), &(text, 1));
    assert_same(
        rt,
        &(text, program.code.sections()[0].as_slice()),
        &(text, wanted),
    );
    assert_same(rt, &(text, program.schedule.is_empty()), &(text, true));
}

/// The text has one section, of these instructions, and no schedule.
fn check_section(rt: &impl Abort, alloc: Global, text: &str, wanted: &[Instr]) {
    let program = program(rt, alloc, text);
    check_program(rt, text, &program, wanted);
}

#[test]
fn a_label_is_the_number_of_the_next_instruction(rt: HostRuntime) {
    for (text, wanted) in &SECTIONS {
        check_section(&rt, rt.alloc(), text, wanted);
    }
}

/// Two sections, with schedules before, between and behind them.
const TWO_SECTIONS: &str = "\
.schedule 1 023*001000000
.mutator
l: jmp l
.schedule 0*2
.mutator
halt
l: jmp l
.schedule 5";

/// Their schedule.
const ITEMS: [Item; 4] = [
    Item {
        worker: 1,
        times: 1,
    },
    Item {
        worker: 23,
        times: 1_000_000,
    },
    Item {
        worker: 0,
        times: 2,
    },
    Item {
        worker: 5,
        times: 1,
    },
];

/// The program has two sections, each with a jump to a label of its own, and four items in its schedule.
fn check_two_sections(rt: &impl Abort, program: &Program) {
    assert_same(rt, &program.code.len(), &2);
    assert_same(rt, &program.code.instr(0, 0), &Some(Instr::Jmp(0)));
    assert_same(rt, &program.code.instr(1, 1), &Some(Instr::Jmp(1)));
    assert_same(rt, &program.schedule.as_slice(), &ITEMS.as_slice());
}

#[test]
fn sections_have_labels_of_their_own(rt: HostRuntime) {
    let program = program(&rt, rt.alloc(), TWO_SECTIONS);
    check_two_sections(&rt, &program);
}

/// The number and the line of an error, and a text that has it.
const FAULTS: [((u8, u32), &str); 45] = [
    ((1, 1), ".mutat"),
    ((1, 2), ".mutator\nhalt\0"),
    ((1, 2), ".mutator\na :"),
    ((1, 2), ".mutator\n1x:"),
    ((1, 2), ".mutator\na: b:"),
    ((1, 2), ".mutator\n:"),
    ((1, 1), "x: .mutator"),
    ((1, 1), "x: .schedule 1"),
    ((2, 2), ".mutator\nli r1"),
    ((2, 2), ".mutator\nli r1 4611686018427387904 5"),
    ((2, 2), ".mutator\nli r8 1"),
    ((2, 2), ".mutator\nli r0 r1"),
    ((2, 2), ".mutator\nst 4611686018427387904 0 r1"),
    ((2, 2), ".mutator\nst r0 4611686018427387904 5"),
    ((2, 2), ".mutator\nmix r0 4611686018427387904 foo"),
    ((2, 2), ".mutator\nmix r0 foo 4611686018427387904"),
    ((2, 2), ".mutator\nmix r0 1"),
    ((2, 2), ".mutator\nmix 4611686018427387904 1 1"),
    ((2, 2), ".mutator\ncas r0 r1 0 r2"),
    ((2, 2), ".mutator\ncas r0 r1 4611686018427387904 r2 5"),
    ((2, 2), ".mutator\njmp 5"),
    ((2, 2), ".mutator\njz r1 a b"),
    ((2, 1), ".mutator x"),
    ((3, 2), ".mutator\njmp x"),
    ((3, 1), "jmp x"),
    ((3, 1), "l: jmp l"),
    ((3, 4), ".mutator\nl:\n.mutator\njmp l"),
    ((3, 2), ".mutator\njmp l\n.mutator x\nl:"),
    ((4, 3), ".mutator\nl:\nl: halt"),
    ((5, 1), "l:\n.mutator"),
    ((5, 1), "halt\n.mutator"),
    ((5, 1), ""),
    ((5, 1), "\n \n; no more"),
    ((5, 1), ".schedule 1\n"),
    ((8, 1), ".schedule 24\n.mutator"),
    ((8, 1), ".schedule 0*0\n.mutator"),
    ((8, 1), ".schedule 0*1000001"),
    ((8, 1), ".schedule 0*18446744073709551616"),
    ((8, 1), ".schedule 0*1*1"),
    ((8, 1), ".schedule *1"),
    ((8, 1), ".schedule"),
    ((9, 2), ".mutator\nmix r0 1 4611686018427387904"),
    ((9, 2), ".mutator\nmix r0 4611686018427387904 r1"),
    ((9, 2), ".mutator\ncas r0 r1 4611686018427387904 r2 r3"),
    ((9, 2), ".mutator\nli r0 4611686018427387904"),
];

/// Texts with more than one error, each with the one that counts.
const FIRST_FAULTS: [((u8, u32), &str); 14] = [
    ((1, 2), ".mutator\nfoo\nli r1"),
    ((2, 2), ".mutator\nli r1\nfoo"),
    ((3, 2), ".mutator\njmp x\nbad"),
    ((1, 3), ".mutator\njmp x\nx: bad"),
    ((1, 3), ".mutator\na:\na: foo"),
    ((2, 3), ".mutator\na:\na: li r1"),
    ((3, 3), ".mutator\na:\na: jmp b"),
    ((4, 3), ".mutator\na:\na: li r0 4611686018427387904"),
    ((4, 3), ".mutator\na:\na:\nfoo"),
    ((5, 1), "li r0 4611686018427387904"),
    ((3, 1), "jmp x\n.mutator\nx:"),
    ((5, 1), "halt\n.mutator x"),
    ((8, 1), ".schedule 24\nfoo"),
    ((9, 2), ".mutator\nli r0 4611686018427387904\nfoo"),
];

/// The text has this error.
fn check_error(rt: &impl Abort, alloc: Global, text: &str, wanted: (u8, u32)) {
    assert_same(rt, &(text, fault_of(alloc, text)), &(text, wanted));
}

/// The text of each row of a table has its error.
fn check_faults(rt: &impl Abort, alloc: Global, table: &[((u8, u32), &str)]) {
    for (wanted, text) in table {
        check_error(rt, alloc, text, *wanted);
    }
}

#[test]
fn each_error_has_its_place(rt: HostRuntime) {
    check_faults(&rt, rt.alloc(), &FAULTS);
}

#[test]
fn the_first_line_counts_and_then_the_lowest_number(rt: HostRuntime) {
    check_faults(&rt, rt.alloc(), &FIRST_FAULTS);
}

/// The lines of a text, and the number of the error of the text up to each byte, or 0 where it is a program.
const PREFIXES: [(&str, &str); 14] = [
    (".mutator\n", "111111100"),
    ("new r0 1\n", "112222200"),
    ("new r1 1\n", "112222200"),
    ("st r0 0 r1\n", "12222222200"),
    ("st r1 0 r0\n", "12222222200"),
    ("put 3 r0\n", "112222200"),
    ("li r0 0\n", "12222200"),
    ("li r1 0\n", "12222200"),
    ("raw r4 127\n", "11222220000"),
    ("li r4 0\n", "12222200"),
    ("raw r4 127\n", "11222220000"),
    ("li r4 0\n", "12222200"),
    ("raw r4 127\n", "11222220000"),
    ("halt\n", "11100"),
];

/// The number that a digit stands for, and the line, or 0 and 0 where it is no error's.
fn prefix_fault(digit: char, line: u32) -> (u8, u32) {
    match digit.to_digit(10) {
        Some(number) if number > 0 => (number as u8, line),
        _ => (0, 0),
    }
}

/// A line is added to the text byte by byte: up to each it has the error of the byte's digit.
fn check_line(
    rt: &impl Abort,
    alloc: Global,
    text: &mut String,
    line: u32,
    bytes: &str,
    digits: &str,
) {
    for (byte, digit) in bytes.chars().zip(digits.chars()) {
        text.push(byte).expect(rt, "no text");
        check_error(rt, alloc, text, prefix_fault(digit, line));
    }
}

#[test]
fn each_prefix_is_a_program_or_has_an_error(rt: HostRuntime) {
    let mut text = String::new(rt.alloc());
    let mut number = 0u32;
    check_error(&rt, rt.alloc(), &text, (5, 1));
    for (line, numbers) in &PREFIXES {
        number = number.saturating_add(1);
        check_line(&rt, rt.alloc(), &mut text, number, line, numbers);
    }
}

/// A first line, a line that is repeated so many times, a last one, and the number and the line of the text's error.
const LIMITS: [(&str, &str, usize, &str, (u8, u32)); 11] = [
    ("", ".mutator\n", 16, "", (0, 0)),
    ("", ".mutator\n", 16, ".mutator", (6, 17)),
    ("", ".mutator\n", 17, "foo", (6, 17)),
    ("", ".mutator\n", 16, ".mutator x", (2, 17)),
    (".mutator\n", "halt\n", 65536, "", (0, 0)),
    (".mutator\n", "halt\n", 65537, "", (7, 65538)),
    (".mutator\n", "halt\n", 65537, "foo", (7, 65538)),
    (".mutator\n", "halt\n", 65536, ".mutator\nhalt", (7, 65539)),
    (
        ".mutator\n",
        "halt\n",
        65536,
        "li r0 4611686018427387904",
        (7, 65538),
    ),
    (".mutator\n.schedule", " 0", 65536, "", (0, 0)),
    (
        ".schedule",
        " 0",
        65535,
        "\n.mutator\n.schedule 1 2",
        (8, 3),
    ),
];

/// Such a text has this error.
fn check_limit(
    rt: &impl Abort,
    alloc: Global,
    first: &str,
    line: &str,
    times: usize,
    last: &str,
    wanted: (u8, u32),
) {
    let text = repeated(rt, alloc, first, line, times, last);
    assert_same(
        rt,
        &(line, last, fault_of(alloc, &text)),
        &(line, last, wanted),
    );
}

#[test]
fn limits_are_those_of_the_whole_text(rt: HostRuntime) {
    for (first, line, times, last, wanted) in &LIMITS {
        check_limit(&rt, rt.alloc(), first, line, *times, last, *wanted);
    }
}

/// The texts of all errors, by their numbers.
const ERROR_TEXTS: [(u8, &str); 9] = [
    (1, "line 20: error 1: unknown instruction"),
    (2, "line 20: error 2: bad operand"),
    (3, "line 20: error 3: unknown label"),
    (4, "line 20: error 4: label twice"),
    (5, "line 20: error 5: no mutator"),
    (6, "line 20: error 6: too many mutators"),
    (7, "line 20: error 7: code too long"),
    (8, "line 20: error 8: bad schedule"),
    (9, "line 20: error 9: number too big"),
];

#[test]
fn an_error_has_its_text(rt: HostRuntime) {
    for (no, wanted) in &ERROR_TEXTS {
        let error = AsmError::Text { no: *no, line: 20 };
        let text = error.to_string(rt.alloc()).expect(&rt, "no text");
        assert_same(&rt, &text.as_str(), wanted);
    }
}

/// The listing of a text that has a program.
fn listing_of(rt: &impl Abort, alloc: Global, text: &str) -> Vec<u8> {
    let program = program(rt, alloc, text);
    list(alloc, &program).expect(rt, "no listing")
}

/// The text has this listing.
fn check_listing(rt: &impl Abort, alloc: Global, text: &str, wanted: &str) {
    let listing = listing_of(rt, alloc, text);
    assert_same(rt, &str::from_utf8(listing.as_slice()), &Ok(wanted));
}

/// Texts, each with its listing.
const LISTINGS: [(&str, &str); 3] = [
    (".mutator\nl: jmp l ; x", ".mutator\nL0: jmp L0\n"),
    (
        ".mutator\n\tli\tr1   007\r\nunused: jz r1 end\nend:\n.schedule 0 0*1 07 3*1000000",
        ".schedule 0 0 7 3*1000000\n.mutator\nli r1 7\njz r1 L2\nL2:\n",
    ),
    (
        ".mutator\na:\nb: put 1 r2\njal r7 a\njmp b\n.mutator\n.mutator\nc: st r0 r1 r2\njmp c",
        ".mutator\nL0: put 1 r2\njal r7 L0\njmp L0\n.mutator\n.mutator\nL0: st r0 r1 r2\njmp L0\n",
    ),
];

#[test]
fn a_listing_is_laid_out_in_one_way(rt: HostRuntime) {
    for (text, wanted) in &LISTINGS {
        check_listing(&rt, rt.alloc(), text, wanted);
        check_listing(&rt, rt.alloc(), wanted, wanted);
    }
}

/// So many instructions, each of which jumps to itself.
fn loops(rt: &impl Abort, alloc: Global, instrs: u32) -> String {
    let mut text = String::from_str(alloc, ".mutator\n").expect(rt, "no text");
    for k in 0..instrs {
        writeln!(text, "L{k}: jmp L{k}").expect(rt, "no text");
    }
    text
}

/// The text of this name is its own listing.
fn check_lists_itself(rt: &impl Abort, alloc: Global, name: &str, text: &str) {
    let lists_itself = listing_of(rt, alloc, text).as_slice() == text.as_bytes();
    assert_same(rt, &(name, lists_itself), &(name, true));
}

/// A first line, a line that is repeated so many times, and a last one, whose text is its own listing.
const LISTED: [(&str, &str, usize, &str); 3] = [
    ("", ".mutator\n", 16, ""),
    (".mutator\n", "halt\n", 65536, ""),
    (".schedule", " 0", 65536, "\n.mutator\n"),
];

#[test]
fn texts_at_the_limits_list_themselves(rt: HostRuntime) {
    for (first, line, times, last) in &LISTED {
        let text = repeated(&rt, rt.alloc(), first, line, *times, last);
        check_lists_itself(&rt, rt.alloc(), line, &text);
    }
    let text = loops(&rt, rt.alloc(), 65536);
    check_lists_itself(&rt, rt.alloc(), "loops", &text);
}
