//! The listing of a program.

ghost use Rattle.std.specs.Prelude.{◌≡◌, ◌<◌, ◌≤◌, ◌^◌, ◌||◌, ◌++◌, ℕ, IfOk, IfSome, IsTrue, OnOk, codes, length, option_map, slice_get};
ghost use Rattle.std.specs.List.{flat_map};
ghost use Rattle.std.specs.String.{string_bytes};
ghost use Rattle.plain_state.specs.declared.sizes.TheConstants.{MOST_INSTRS};
ghost use Rattle.program_text.specs.Labels.{KnowsTargets};
ghost use Rattle.mutator_asm.specs.Listing.{end_if, instr_tokens, jump_target, label_if, leads_to, line_text, listing, schedule_lines, section_lines};
ghost use Rattle.mutator_asm.specs.Program.{is_closed};
ghost use Rattle.mutator_asm.specs.Text.{IsText};

use mutator_asm::{Instr, Item, Program};
use plain_state::NoMemory;
use std::alloc::Global;

/// Marks the number that an instruction leads to, where it is a jump to a label.
fn mark(targets: &mut Vec<bool>, instr: Instr)
    requires { IfSome (jump_target instr) (λ target. target < length targets.old.items) }
    ensures marked { (k : ℕ) → slice_get targets.new.items k ≡ option_map (λ marked. marked || leads_to k instr) (slice_get targets.old.items k) }
    ensures all { length targets.new.items ≡ length targets.old.items }
{
    if let Some(target) = instr.target() {
        targets[target as usize] = true;
    }
}

/// For each number of a section, and the one behind its last instruction, whether a jump leads there.
fn targets(alloc: Global, section: &[Instr]) -> Result<Vec<bool>, NoMemory>
    requires few { length section.now ≤ MOST_INSTRS }
    requires closed { IsTrue (is_closed section.now) }
    ensures { IfOk result (λ targets. KnowsTargets targets.items section.now) }
{
    let mut targets = vec![in alloc; false; section.len() + 1]?;
    for instr in section {
        mark(&mut targets, *instr);
    }
    Ok(targets)
}

/// Adds the label of a number before an instruction, where a jump leads to it.
fn push_label(out: &mut String, k: usize, is_target: bool) -> Result<(), NoMemory>
    ensures { OnOk result (string_bytes out.new ≡ string_bytes out.old ++ flat_map (λ label. label ++ codes " ") (label_if is_target k)) }
{
    if is_target {
        write!(out, "L{k}: ")?;
    }
    Ok(())
}

/// Adds the line of an instruction, behind its label where a jump leads to it.
fn push_instr(out: &mut String, k: usize, is_target: bool, instr: Instr) -> Result<(), NoMemory>
    ensures { OnOk result (string_bytes out.new ≡ string_bytes out.old ++ line_text (label_if is_target k ++ instr_tokens instr)) }
{
    push_label(out, k, is_target)?;
    writeln!(out, "{instr}")?;
    Ok(())
}

/// Adds a line with the label behind the last instruction, where a jump leads there.
fn push_end(out: &mut String, end: usize, is_target: bool) -> Result<(), NoMemory>
    ensures { OnOk result (string_bytes out.new ≡ string_bytes out.old ++ flat_map line_text (end_if is_target end)) }
{
    if is_target {
        writeln!(out, "L{end}:")?;
    }
    Ok(())
}

/// Adds the lines of a section.
fn push_section(alloc: Global, out: &mut String, section: &[Instr]) -> Result<(), NoMemory>
    requires few { length section.now ≤ MOST_INSTRS }
    requires closed { IsTrue (is_closed section.now) }
    ensures { OnOk result (string_bytes out.new ≡ string_bytes out.old ++ flat_map line_text (section_lines section.now)) }
{
    let targets = targets(alloc, section)?;
    out.push_str(".mutator\n")?;
    for (k, instr) in section.iter().enumerate() {
        push_instr(out, k, targets[k], *instr)?;
    }
    push_end(out, section.len(), targets[section.len()])
}

/// Adds the line of a schedule, where it has items.
fn push_schedule(out: &mut String, items: &[Item]) -> Result<(), NoMemory>
    ensures { OnOk result (string_bytes out.new ≡ string_bytes out.old ++ flat_map line_text (schedule_lines items.now)) }
{
    if items.is_empty() {
        return Ok(());
    }
    out.push_str(".schedule")?;
    for item in items {
        write!(out, " {item}")?;
    }
    out.push('\n')?;
    Ok(())
}

/// The listing of a program: where its schedule has items, a line `.schedule` with all of them, `w`
/// where the worker makes one step, else `w*k`; then for each mutator a line `.mutator` and a line for
/// each instruction. One space stands between two tokens, numbers are decimal without leading zeros,
/// and each line ends with LF. Instructions are numbered from 0 in each section. Where a jump leads to
/// number k, its line begins with `Lk: `; where k is the section's length, `Lk:` is a line of its own
/// behind the last instruction.
///
/// It means this program and no other (`listing_is_a_text`). `NoMemory` says only that no memory was
/// left.
pub fn list(alloc: Global, program: &Program) -> Result<Vec<u8>, NoMemory>
    ensures exact { IfOk result (λ bytes. bytes.items ≡ listing program.now.code program.now.schedule) }
    ensures text { IfOk result (λ bytes. IsText bytes.items program.now.code program.now.schedule) }
    ensures short { IfOk result (λ bytes. length bytes.items < 2 ^ 31) }
{
    let mut out = String::new(alloc);
    push_schedule(&mut out, program.schedule.as_slice())?;
    for section in program.code.sections() {
        push_section(alloc, &mut out, section.as_slice())?;
    }
    Ok(out.into_bytes())
}
