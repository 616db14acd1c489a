use crate::asserting::assert_same;
use crate::texts::program;
use mutator_asm::Program;
use plain_heap::{End, Mark};
use plain_machine::{PlainState, plain_run, plain_step, print, push_order};
use std::alloc::Global;
use std::process::Abort;

/// Rows of a name, the text of one mutator, and what is printed of it, with slashes for line ends. As many numbers as a mutator
/// may print stand in the place of @.
const TABLE: &str = "\
li takes a number|.mutator/li r1 7/out r1/halt/|0: 7/0: halt/
mov takes a number|.mutator/li r1 7/mov r2 r1/out r2/halt/|0: 7/0: halt/
mov takes a reference|.mutator/new r1 4/mov r2 r1/len r3 r2/out r3/halt/|0: 4/0: halt/
add is modulo 2^62|.mutator/li r1 4611686018427387903/li r2 2/add r3 r1 r2/out r3/halt/|0: 1/0: halt/
sub is modulo 2^62|.mutator/li r1 1/li r2 2/sub r3 r1 r2/out r3/halt/|0: 4611686018427387903/0: halt/
mul is modulo 2^62|.mutator/li r1 4611686018427387903/mul r2 r1 r1/out r2/halt/|0: 1/0: halt/
div is the quotient|.mutator/li r1 7/li r2 2/div r3 r1 r2/out r3/halt/|0: 3/0: halt/
rem is the remainder|.mutator/li r1 7/li r2 2/rem r3 r1 r2/out r3/halt/|0: 1/0: halt/
lt compares numbers|.mutator/li r1 7/li r2 8/lt r3 r1 r2/out r3/lt r3 r2 r1/out r3/lt r3 r1 r1/out r3/halt/|0: 1/0: 0/0: 0/0: halt/
eq compares numbers|.mutator/li r1 7/li r2 7/eq r3 r1 r2/out r3/eq r3 r1 r0/out r3/halt/|0: 1/0: 0/0: halt/
eq compares records|.mutator/new r1 1/mov r2 r1/new r3 1/eq r4 r1 r2/out r4/eq r4 r1 r3/out r4/eq r4 r1 r0/out r4/halt/|0: 1/0: 0/0: 0/0: halt/
jmp goes on at its label|.mutator/jmp over/out r0/over: halt/|0: halt/
jz jumps at the number 0 alone|.mutator/new r1 0/jz r1 no/li r2 1/jz r2 no/jz r0 yes/no: out r0/yes: halt/|0: halt/
jal keeps the number of the next|.mutator/out r0/jal r1 over/halt/over: out r1/halt/|0: 0/0: 2/0: halt/
jr goes on at its number|.mutator/li r1 3/jr r1/out r0/halt/|0: halt/
new makes a record of zeros|.mutator/li r1 3/new r2 r1/len r3 r2/out r3/ld r4 r2 2/out r4/halt/|0: 3/0: 0/0: halt/
raw makes a record of zeros|.mutator/raw r2 3/len r3 r2/out r3/ld r4 r2 2/out r4/halt/|0: 3/0: 0/0: halt/
mix makes fields and raw words of zeros|.mutator/mix r2 1 2/len r3 r2/out r3/ld r4 r2 2/out r4/st r2 0 r2/ld r3 r2 0/eq r4 r3 r2/out r4/halt/|0: 3/0: 0/0: 1/0: halt/
a mixed record may have 4094 words|.mutator/li r1 4093/mix r2 1 r1/len r3 r2/out r3/halt/|0: 4094/0: halt/
a record may have 4095 words|.mutator/li r1 1/raw r2 4095/len r3 r2/out r3/halt/|0: 4095/0: halt/
st and ld have a word of a record|.mutator/new r1 2/li r2 9/st r1 1 r2/ld r3 r1 1/out r3/ld r3 r1 0/out r3/halt/|0: 9/0: 0/0: halt/
st and ld have a reference|.mutator/new r1 1/st r1 0 r1/ld r2 r1 0/eq r3 r1 r2/out r3/halt/|0: 1/0: halt/
cas exchanges what it expects|.mutator/new r1 1/li r2 9/cas r3 r1 0 r0 r2/out r3/ld r4 r1 0/out r4/halt/|0: 1/0: 9/0: halt/
cas leaves what it doesn't expect|.mutator/new r1 1/li r2 9/cas r3 r1 0 r2 r2/out r3/ld r4 r1 0/out r4/halt/|0: 0/0: 0/0: halt/
cas exchanges references|.mutator/new r1 1/st r1 0 r1/mov r2 r1/cas r3 r1 0 r2 r0/out r3/ld r4 r1 0/out r4/halt/|0: 1/0: 0/0: halt/
cas tells records apart|.mutator/new r1 1/new r2 1/st r1 0 r1/cas r3 r1 0 r2 r0/out r3/ld r4 r1 0/eq r5 r4 r1/out r5/halt/|0: 0/0: 1/0: halt/
cas compares a raw word as a number|.mutator/raw r1 1/li r2 4/st r1 0 r2/li r3 1/cas r4 r1 0 r3 r0/out r4/cas r4 r1 0 r2 r3/out r4/ld r4 r1 0/out r4/halt/|0: 0/0: 1/0: 1/0: halt/
cas never finds a reference in a raw word|.mutator/raw r1 1/cas r3 r1 0 r1 r0/out r3/halt/|0: 0/0: halt/
cas reads its operands first|.mutator/new r1 1/li r2 7/cas r2 r1 0 r0 r2/out r2/ld r1 r1 0/out r1/halt/|0: 1/0: 7/0: halt/
isp tells references|.mutator/new r1 0/isp r2 r1/out r2/isp r2 r0/out r2/halt/|0: 1/0: 0/0: halt/
put and get have a word of the board|.mutator/li r1 5/put 15 r1/get r2 15/out r2/get r2 14/out r2/halt/|0: 5/0: 0/0: halt/
swap exchanges|.mutator/li r1 5/put 3 r1/li r2 6/swap r2 3/out r2/get r4 3/out r4/halt/|0: 5/0: 6/0: halt/
snap goes on|.mutator/snap/out r0/halt/|0: 0/0: halt/
snap leaves all as it is|.mutator/new r1 1/li r2 5/st r1 0 r2/put 0 r1/snap/li r2 6/st r1 0 r2/snap/get r3 0/ld r3 r3 0/out r3/halt/|0: 6/0: halt/
ld asks for a reference|.mutator/new r2 1/ld r1 r0 r2/|0: not a pointer/
st asks for a reference|.mutator/new r2 1/st r0 r2 r2/|0: not a pointer/
cas asks for a reference|.mutator/new r2 1/cas r1 r0 r2 r0 r0/|0: not a pointer/
len asks for a reference|.mutator/len r1 r0/|0: not a pointer/
add asks for numbers|.mutator/new r1 0/add r2 r1 r0/|0: not a number/
sub asks for numbers|.mutator/new r1 0/sub r2 r0 r1/|0: not a number/
mul asks for numbers|.mutator/new r1 0/mul r2 r1 r0/|0: not a number/
div asks for numbers first|.mutator/new r1 0/div r2 r1 r0/|0: not a number/
rem asks for numbers first|.mutator/new r1 0/rem r2 r1 r0/|0: not a number/
lt asks for numbers|.mutator/new r1 0/lt r2 r0 r1/|0: not a number/
jr asks for a number|.mutator/new r1 0/jr r1/|0: not a number/
new asks for a number|.mutator/new r1 0/new r2 r1/|0: not a number/
raw asks for a number|.mutator/new r1 0/raw r2 r1/|0: not a number/
mix asks for a number first|.mutator/new r1 0/mix r2 r1 5000/|0: not a number/
and for another before it adds|.mutator/new r1 0/mix r2 5000 r1/|0: not a number/
ld asks for a number next|.mutator/new r1 0/ld r2 r1 r1/|0: not a number/
st asks for a number next|.mutator/raw r1 1/st r1 r1 r1/|0: not a number/
cas asks for a number next|.mutator/raw r1 1/cas r2 r1 r1 r0 r1/|0: not a number/
get asks for a number|.mutator/new r1 0/get r2 r1/|0: not a number/
put asks for a number|.mutator/new r1 0/put r1 r0/|0: not a number/
swap asks for a number|.mutator/new r1 0/swap r2 r1/|0: not a number/
out asks for a number|.mutator/new r1 0/out r1/|0: not a number/
new is too long|.mutator/new r1 4096/|0: out of range/
raw is too long|.mutator/raw r1 4096/|0: out of range/
mix is too long|.mutator/mix r1 4094 1/|0: out of range/
ld is past the record|.mutator/new r1 2/ld r2 r1 2/|0: out of range/
st is past a mixed record|.mutator/mix r1 1 1/st r1 2 r1/|0: out of range/
st is past the record, which comes first|.mutator/raw r1 2/st r1 2 r1/|0: out of range/
cas is past the record, which comes first|.mutator/raw r1 2/cas r2 r1 2 r0 r1/|0: out of range/
get is past the board|.mutator/get r1 16/|0: out of range/
put is past the board|.mutator/put 16 r1/|0: out of range/
swap is past the board|.mutator/swap r1 16/|0: out of range/
st of a reference into raw words|.mutator/raw r1 1/st r1 0 r1/|0: pointer into raw/
st of a reference behind the fields|.mutator/mix r1 1 1/st r1 0 r1/st r1 1 r1/|0: pointer into raw/
cas of a reference behind the fields|.mutator/mix r1 1 1/cas r2 r1 0 r0 r1/cas r2 r1 1 r0 r1/|0: pointer into raw/
cas of a reference into raw words, whatever stands there|.mutator/raw r1 1/li r2 5/cas r3 r1 0 r2 r1/|0: pointer into raw/
div by zero|.mutator/li r1 7/div r2 r1 r0/|0: zero divisor/
rem by zero|.mutator/li r1 7/rem r2 r1 r0/|0: zero divisor/
the code ends|.mutator/out r0/|0: 0/0: jump out/
jr leads past the code|.mutator/li r1 9/jr r1/|0: jump out/
so many instructions are executed|.mutator/on: jmp on/|0: turns out/
so many numbers are printed|.mutator/on: out r0/jmp on/|@0: output full/
a record asks for 64 pages|.mutator/raw r0 4095/|0: heap full asked 64 room 256 live 0/";

/// The most instructions that a mutator executes here.
const TURNS: u32 = 140_000;

/// The most numbers that a mutator prints.
const MOST_PRINTED: usize = 65_536;

/// What a run of this program by an order prints.
fn run_program(rt: &impl Abort, alloc: Global, p: &Program, order: &[Mark]) -> Vec<u8> {
    let s = plain_run(alloc, p, TURNS, order).expect(rt, "no run");
    print(alloc, &s).expect(rt, "no lines")
}

/// The name of a row, its text, and its lines.
fn parts<'a>(rt: &impl Abort, row: &'a str) -> (&'a str, &'a str, &'a str) {
    let (name, rest) = row.split_once('|').expect(rt, "no bar");
    let (text, lines) = rest.split_once('|').expect(rt, "no second bar");
    (name, text, lines)
}

/// An end for want of room where so many pages are asked for.
fn full(asked: u32) -> Mark {
    Mark::Full {
        m: 0,
        asked,
        room: 256,
        live: 0,
    }
}

/// An order for all rows. Of its first marks the fifth ends a mutator whose first instruction asks for 64 pages, and the
/// others change nothing.
fn long_order(rt: &impl Abort, alloc: Global) -> Vec<Mark> {
    let steps = 5 + TURNS as usize + 1;
    let mut order = vec![in alloc; Mark::Step(0); steps].expect(rt, "no order");
    order[0] = Mark::Step(1);
    order[1] = Mark::Flip(63);
    order[2] = Mark::Traced;
    order[3] = full(63);
    order[4] = full(64);
    order
}

/// A row with its line ends, and with as many numbers as may be printed.
fn filled(rt: &impl Abort, alloc: Global, row: &str, numbers: &str) -> String {
    let row = row.replace(alloc, '@', numbers).expect(rt, "no row");
    row.replace(alloc, '/', "\n").expect(rt, "no row")
}

/// Runs the text of a row by an order, and compares what is printed.
fn check_row(rt: &impl Abort, alloc: Global, row: &str, order: &[Mark]) {
    let (name, text, lines) = parts(rt, row);
    let p = program(rt, alloc, text);
    let found = run_program(rt, alloc, &p, order);
    assert_same(rt, &(name, found.as_slice()), &(name, lines.as_bytes()));
}

#[test]
fn each_instruction_and_each_end(rt: HostRuntime) {
    let numbers = "0: 0/".repeat(rt.alloc(), MOST_PRINTED);
    let numbers = numbers.expect(&rt, "no numbers");
    let order = long_order(&rt, rt.alloc());
    for row in TABLE.split('\n') {
        let row = filled(&rt, rt.alloc(), row, &numbers);
        check_row(&rt, rt.alloc(), &row, &order);
    }
}

/// The plain machine after so many steps of mutator 0.
fn stepped(rt: &impl Abort, alloc: Global, p: &Program, steps: u32) -> PlainState {
    let mut s = PlainState::open(alloc, p).expect(rt, "no state");
    for _step in 0..steps {
        plain_step(alloc, &mut s, p, 6, 0).expect(rt, "no step");
    }
    s
}

const SIX_STEPS: &str = ".mutator\nli r1 7\nnew r0 2\nst r0 1 r1\nld r2 r0 1\nout r2\nhalt\n";

#[test]
fn six_steps_print_the_number_and_the_end(rt: HostRuntime) {
    let p = program(&rt, rt.alloc(), SIX_STEPS);
    let s = stepped(&rt, rt.alloc(), &p, 6);
    assert!(rt; s.mutators() == 1);
    let told = (s.printed(0), s.ended(0));
    assert_same(&rt, &told, &(&[7][..], Some(End::Halt)));
    let printed = print(rt.alloc(), &s).expect(&rt, "no lines");
    assert_same(&rt, &printed.as_slice(), &b"0: 7\n0: halt\n".as_slice());
}

#[test]
fn an_order_has_its_line(rt: HostRuntime) {
    let mut line = String::new(rt.alloc());
    let cycle = [Mark::Flip(64), Mark::Traced, full(64)];
    push_order(&mut line, &[Mark::Step(0); 6]).expect(&rt, "no line");
    push_order(&mut line, &cycle).expect(&rt, "no line");
    let wanted = "order 0 0 0 0 0 0\norder F64 T X0,64,256,0\n";
    assert_same(&rt, &line.as_str(), &wanted);
}
