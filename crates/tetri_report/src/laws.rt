// What is printed reads back, from lines that are short, and certificates are told line by line.
ghost use Rattle.std.specs.Prelude.{◌≡◌, ◌≤◌, ◌++◌, All, List, ℕ, Ok, flat_map, length};
ghost use Rattle.tetri_cert.specs.declared.certificate.Certificate.TheVariants.{Tops};
ghost use Rattle.tetri_io.specs.Lines.{lines_from};
ghost use Rattle.tetri_report.specs.Block.{Block};
ghost use Rattle.tetri_report.specs.BlockLines.{occurrences_in};
ghost use Rattle.tetri_report.specs.Printable.{IsInRange, IsPrintable, IsSummaryInRange};
ghost use Rattle.tetri_report.specs.Reading.{Reading, behind_line, end_answer, line_answer, opened, report_in};
ghost use Rattle.tetri_report.specs.Strips.{BeginsBare, Telling, answer_told, bare, certificate_with, report_told, strip_behind, told_answer, told_in};
ghost use Rattle.tetri_report.specs.declared.cycle.Summary.{Summary};
ghost use Rattle.tetri_report.specs.Text.{cycle_text, events_text, launches_text, plan_text, summary_text};
ghost use Rattle.tetri_report.specs.WholeLines.{IsOfShortLines};
ghost use Rattle.tetri_trace.specs.Scenario.{Scenario};
ghost use Rattle.tetri_trace.specs.Sound.{IsSound};

/// Each line of a printed report, without its line feed, has at most 1,048,576 bytes.
pub fn printed_lines_are_short()
    ensures { (t : Scenario) (bs : List Block) (s : Summary) → IsSound t → All (IsPrintable t) bs → All IsInRange bs
        → IsSummaryInRange s → All (λ l. length l.0 ≤ 1048576) (lines_from 0 (flat_map (cycle_text t) bs ++ summary_text s)) }
{}

/// The texts that `print_events`, `print_plan` and `print_launches` give of a cycle are whole lines, each of at most 1,048,576 bytes
/// without its line feed. So is such a text behind another, and whoever reads one finds no longer line.
pub fn printed_parts_are_short()
    ensures events { (t : Scenario) (b : Block) → IsSound t → IsPrintable t b → IsInRange b
        → IsOfShortLines (events_text t b.number (occurrences_in b)) }
    ensures plan { (t : Scenario) (b : Block) → IsSound t → IsPrintable t b → IsInRange b
        → IsOfShortLines (plan_text t b.value b.bound b.mark b.nodes b.grants b.starts b.certificate) }
    ensures launches { (t : Scenario) (b : Block) → IsSound t → IsPrintable t b → IsInRange b
        → IsOfShortLines (launches_text t b.launched) }
    ensures behind { (text more : List ℕ) → IsOfShortLines text → IsOfShortLines more
        → IsOfShortLines (text ++ more) }
    ensures read { (text : List ℕ) → IsOfShortLines text
        → All (λ l. length l.0 ≤ 1048576) (lines_from 0 text) }
{}

/// A printed report reads back as its cycles and its summary.
pub fn printed_reports_read_back()
    ensures { (t : Scenario) (bs : List Block) (s : Summary) → IsSound t → All (IsPrintable t) bs → All IsInRange bs
        → IsSummaryInRange s → report_in t (flat_map (cycle_text t) bs ++ summary_text s) ≡ Ok (bs, s) }
{}

/// What a line answers and leaves where no certificate is kept: the same as where it is, with the certificate left out. A block that
/// is ended is the one that was read, with the certificate that was told before.
pub fn strips_read_as_blocks()
    ensures told { (t : Scenario) (r : Reading) (line : List ℕ) → told_answer t (bare r) line ≡ told_answer t r line }
    ensures answer { (t : Scenario) (r : Reading) (line : List ℕ) → line_answer t r line ≡ answer_told r.block.certificate (told_answer t r line) }
    ensures left { (t : Scenario) (r : Reading) (line : List ℕ) → strip_behind t (bare r) line ≡ bare (behind_line t r line) }
    ensures end { (r : Reading) → end_answer (bare r) ≡ end_answer r }
{}

/// The certificate of the block that is being read is what its lines told until then, in order; and a report is what its lines tell,
/// each block with the certificate that was told since it began.
pub fn certificates_are_told()
    ensures none { BeginsBare opened }
    ensures line { (t : Scenario) (r : Reading) (line : List ℕ) (told : Telling) → BeginsBare r → told_answer t r line ≡ Ok told
        → (behind_line t r line).block.certificate ≡ certificate_with r.block.certificate told }
    ensures kept { (t : Scenario) (r : Reading) (line : List ℕ) → BeginsBare r → BeginsBare (behind_line t r line) }
    ensures report { (t : Scenario) (bytes : List ℕ) → report_in t bytes ≡ report_told (Tops 0 0) (told_in t bytes) }
{}
