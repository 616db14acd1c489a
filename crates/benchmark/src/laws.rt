//! What holds of all benchmarks. The function here does nothing: its contract is what is proved.

ghost use Rattle.benchmark.specs.Theorems.{BenchmarksAreTexts};

/// The text of each benchmark means a program, so that it has no fault.
pub fn benchmarks_are_texts()
    ensures { BenchmarksAreTexts }
{}
