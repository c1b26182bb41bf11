// Traces that are read from memory.
ghost use Rattle.std.specs.Prelude.{IfOk};
ghost use Rattle.tetri_trace.specs.Scenario.{scenario};
ghost use Rattle.tetri_trace.specs.Sound.{IsSound};

use std::alloc::{AllocError, Global};
use tetri_io::MemShelf;
use tetri_trace::{Trace, TraceFault, read_trace};

/// What reading a content answers.
pub fn answer(alloc: Global, content: &[u8]) -> Result<Result<Trace, TraceFault>, AllocError>
    ensures { IfOk result (λ r. IfOk r (λ t. IsSound (scenario t))) }
{
    let mut shelf = MemShelf::new(alloc, 4000, &[])?;
    shelf.put("trace", content)?;
    Ok(read_trace(alloc, &mut shelf, "trace"))
}
