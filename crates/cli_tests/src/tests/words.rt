//! What the words of a command line mean.

use super::{same, words_of};
use ael_commands::{
    AuditOptions, BenchOperands, ConcordOptions, Job, RunOptions, SimOptions, read_words,
};
use simple_commands::WordsError;
use std::alloc::Global;
use std::test::Fail;

/// Words and their job: a simulation's pages, with those that a space may come to have behind a `-` if they are more, its
/// scanners, turns, steps, seed and order, and the flags besides that were given; a run's pages, scanners, turns and flags; a
/// concordance's workers and pages; a benchmark's depth and seed; or an audit's turns.
const ROWS: &str = "\
sim|256 1 1000000 10000000 None false
sim --|256 1 1000000 10000000 None false
sim --order|256 1 1000000 10000000 None true
sim --order --|256 1 1000000 10000000 None true
sim --pages 8|8 1 1000000 10000000 None false
sim --pages=8|8 1 1000000 10000000 None false
sim --pages 08|8 1 1000000 10000000 None false
sim --pages +8|8 1 1000000 10000000 None false
sim --pages 4 --order|4 1 1000000 10000000 None true
sim --order --pages 2048|2048 1 1000000 10000000 None true
sim --limit 256|256 1 1000000 10000000 None false
sim --limit 2048|256-2048 1 1000000 10000000 None false
sim --limit=+08 --pages 4|4-8 1 1000000 10000000 None false
sim --pages 8 --limit 8|8 1 1000000 10000000 None false
sim --scanners 0|256 0 1000000 10000000 None false
sim --scanners 8|256 8 1000000 10000000 None false
sim --scanners=-0|256 0 1000000 10000000 None false
sim --scanners=+0|256 0 1000000 10000000 None false
sim --turns 1|256 1 1 10000000 None false
sim --turns 10000000|256 1 10000000 10000000 None false
sim --steps 1|256 1 1000000 1 None false
sim --steps 100000000|256 1 1000000 100000000 None false
sim --seed 0|256 1 1000000 10000000 Some(0) false
sim --seed=1|256 1 1000000 10000000 Some(1) false
sim --seed +5|256 1 1000000 10000000 Some(5) false
sim --seed 18446744073709551615|256 1 1000000 10000000 Some(18446744073709551615) false
sim --turns 3 --steps 5|256 1 3 5 None false
sim --order --seed 1 --steps 6 --turns 5 --scanners 0 --pages 8|8 0 5 6 Some(1) true
sim --cycles|256 1 1000000 10000000 None false cycles
sim --dump --order|256 1 1000000 10000000 None true dump
sim --dump --cycles|256 1 1000000 10000000 None false cycles dump
sim --snap|256 1 1000000 10000000 None false snap
sim --dump --snap --order --cycles|256 1 1000000 10000000 None true cycles snap dump
run|run 256 1 1000000
run --|run 256 1 1000000
run --pages 8|run 8 1 1000000
run --pages=+08 --|run 8 1 1000000
run --limit 257|run 256-257 1 1000000
run --limit 128 --pages 4|run 4-128 1 1000000
run --scanners 0|run 256 0 1000000
run --scanners=-0|run 256 0 1000000
run --turns 10000000|run 256 1 10000000
run --cycles|run 256 1 1000000 cycles
run --dump|run 256 1 1000000 dump
run --snap --pages 8|run 8 1 1000000 snap
run --dump --turns 5 --cycles --scanners 8 --pages 2048|run 2048 8 5 cycles dump
concord|concord 2 256
concord --|concord 2 256
concord --workers 1|concord 1 256
concord --workers 16|concord 16 256
concord --workers=+03 --|concord 3 256
concord --pages 4|concord 2 4
concord --pages 2048 --workers 08|concord 8 2048
asm|asm
asm --|asm
audit|audit 1000000
audit --|audit 1000000
audit --turns 1|audit 1
audit --turns=+010000000 --|audit 10000000
audit --turns 0|refused
audit --turns 10000001|refused
audit --turns|refused
audit --turns 1 --turns 1|refused
audit --pages 4|refused
audit --order|refused
audit x|refused
Audit|refused
|refused
''|refused
--|refused
-- sim|refused
sim --pages|refused
sim --pages --order|refused
sim --pages 8 --pages 8|refused
sim --pages 0x8|refused
sim --pages 8.0|refused
sim --pages ''|refused
sim --pages=|refused
sim --pages 3|refused
sim --pages 2049|refused
sim --pages -8|refused
sim --limit 255|refused
sim --pages 8 --limit 7|refused
sim --pages 4 --limit 3|refused
sim --limit 2049|refused
sim --limit|refused
sim --limit 300 --limit 300|refused
sim --scanners -0|refused
sim --scanners 9|refused
sim --scanners=-1|refused
sim --turns 0|refused
sim --turns 10000001|refused
sim --steps 0|refused
sim --steps 100000001|refused
sim --seed|refused
sim --seed -1|refused
sim --seed=-0|refused
sim --seed 18446744073709551616|refused
sim --seed 1 --seed 2|refused
sim --seed --steps 5|refused
sim --order --order|refused
sim --order=x|refused
sim --order=|refused
sim --page 8|refused
sim --cycles --cycles|refused
sim --dump=1|refused
sim --snap --snap|refused
sim --snap=1|refused
sim --snap 1|refused
sim --sna|refused
run --pages 3|refused
run --pages 2049|refused
run --limit 255|refused
run --limit 2049 --pages 2048|refused
run --scanners 9|refused
run --turns 0|refused
run --turns 10000001|refused
run --steps 5|refused
run --seed 1|refused
run --order|refused
run --cycles --cycles|refused
run --dump=1|refused
run --snap --snap|refused
run --snap=|refused
run --pages|refused
run x|refused
run sim|refused
sim run|refused
run --help|refused
--cycles run|refused
Run|refused
concord --workers 0|refused
concord --workers 17|refused
concord --workers -1|refused
concord --workers|refused
concord --workers 1 --workers 1|refused
concord --pages 3|refused
concord --pages 2049|refused
concord --limit 300|refused
concord --scanners 1|refused
concord --turns 5|refused
concord --cycles|refused
concord --snap|refused
concord x|refused
concord sim|refused
concord --help|refused
--workers 1 concord|refused
Concord|refused
sim --workers 1|refused
run --workers 1|refused
asm --workers 1|refused
sim x|refused
sim -- x|refused
sim -- --order|refused
--order sim|refused
--pages 8 sim|refused
help|refused
help sim|refused
--help|refused
-h|refused
-V|refused
--version|refused
sim --help|refused
bench 3 1|bench 3 1
bench 1 0|bench 1 0
bench 9 18446744073709551615|bench 9 18446744073709551615
bench 03 +1|bench 3 1
bench +3 01|bench 3 1
bench -- 3 1|bench 3 1
bench 3 -- 1|bench 3 1
bench 3 1 --|bench 3 1
bench|refused
bench 3|refused
bench 3 1 2|refused
bench 0 1|refused
bench 10 1|refused
bench -3 1|refused
bench -- -3 1|refused
bench 3.0 1|refused
bench '' 1|refused
bench 3 ''|refused
bench 3 -1|refused
bench -- 3 -1|refused
bench 3 18446744073709551616|refused
bench 3 1 --cycles|refused
bench 3 1 --snap|refused
bench 3 1 --limit 300|refused
bench --seed 1 3|refused
bench --depth 3 1|refused
bench --help|refused
3 1 bench|refused
asm x|refused
asm asm|refused
asm sim|refused
sim asm|refused
asm --order|refused
asm --dump|refused
asm --snap|refused
asm --pages 8|refused
asm --limit 300|refused
asm ''|refused
asm -- x|refused
asm --help|refused
-- asm|refused
Asm|refused
as|refused
sim_--order|refused
sim --pages=_8|refused";

/// The text of the flags that a run has besides.
fn flags_text(alloc: Global, options: RunOptions) -> Result<String, Fail> {
    let mut text = String::new(alloc);
    let flags = [
        (options.cycles, " cycles"),
        (options.snap, " snap"),
        (options.dump, " dump"),
    ];
    for (given, name) in flags {
        if given {
            text.push_str(name)?;
        }
    }
    Ok(text)
}

/// The text of a run's pages.
fn pages_text(alloc: Global, options: RunOptions) -> Result<String, Fail> {
    let RunOptions { pages, limit, .. } = options;
    if limit == pages {
        return Ok(format!(in alloc; "{pages}")?);
    }
    Ok(format!(in alloc; "{pages}-{limit}")?)
}

/// The text of a simulation's options.
fn sim_text(alloc: Global, options: SimOptions) -> Result<String, Fail> {
    let SimOptions {
        run,
        steps,
        seed,
        order,
    } = options;
    let flags = flags_text(alloc, run)?;
    let pages = pages_text(alloc, run)?;
    let RunOptions {
        scanners,
        turns,
        ..
    } = run;
    Ok(format!(in alloc; "{pages} {scanners} {turns} {steps} {seed:?} {order}{flags}")?)
}

/// The text of a run's options.
fn run_text(alloc: Global, options: RunOptions) -> Result<String, Fail> {
    let flags = flags_text(alloc, options)?;
    let pages = pages_text(alloc, options)?;
    let RunOptions {
        scanners,
        turns,
        ..
    } = options;
    Ok(format!(in alloc; "run {pages} {scanners} {turns}{flags}")?)
}

/// The text of what words were read to.
fn found_text(alloc: Global, found: Result<Job, WordsError>) -> Result<String, Fail> {
    match found {
        Ok(Job::Asm) => Ok(String::from_str(alloc, "asm")?),
        Ok(Job::Bench(BenchOperands { depth, seed })) => {
            Ok(format!(in alloc; "bench {depth} {seed}")?)
        }
        Ok(Job::Sim(options)) => sim_text(alloc, options),
        Ok(Job::Run(options)) => run_text(alloc, options),
        Ok(Job::Concord(ConcordOptions { workers, pages })) => {
            Ok(format!(in alloc; "concord {workers} {pages}")?)
        }
        Ok(Job::Audit(AuditOptions { turns })) => Ok(format!(in alloc; "audit {turns}")?),
        Err(WordsError::Refused) => Ok(String::from_str(alloc, "refused")?),
        Err(WordsError::NoMemory) => Ok(String::from_str(alloc, "no memory")?),
    }
}

/// Fails where the words of a row are read to another job.
fn check_words(alloc: Global, row: &str) -> Result<(), Fail> {
    let (line, wanted) = row.split_once('|').ok_or("a row without its job")?;
    let words = words_of(alloc, line)?;
    let found = found_text(alloc, read_words(alloc, &words))?;
    same(line, "job", found.as_bytes(), wanted.as_bytes())
}

#[test]
fn words_are_read_as_clap_takes_them(rt: HostRuntime) -> Result<(), Fail> {
    for row in ROWS.split('\n') {
        check_words(rt.alloc(), row)?;
    }
    Ok(())
}
