// What is printed.

/// The version of both programs, the first of CHANGELOG.md, and the logic of the kit by which they
/// are proved, as `rt version` names it.
pub const VERSION: &str = "0.23.0 (logic dac8208d650f15bf)";

/// What `tetri --help` prints.
pub const HELP: &str = "\
tetri plans a mixed cluster slot by slot, and proves how far each plan can be from the best.

Usage: tetri COMMAND ..

  plan TRACE            plan a trace, and write its report
  check TRACE REPORT    check a report against its trace
  parts TRACE           plan jobs that can share no node by themselves
  tight TRACE           tell how far a few cuts lower each bound
  admit TRACE           answer which jobs can all be served together
  load N                plan a trace that is made from a number
  --help                this text
  --version             the version, and the logic of the proofs

Example: tetri plan examples/morning.jsonl

Exit numbers: 0 done, 1 refused, 2 wrong words, 3 read fault, 4 write fault, 5 bad trace,
6 out of memory.

Read on: docs/FORMATS.md for traces, docs/REPORTS.md for reports. Imports, pictures and pipes:
tetri_ctl --help.
";
