//! The lines that an action has to print, as they are made.
ghost use Rattle.std.specs.Prelude.{◌≡◌, [], ◌∷◌, IfOk};

use std::alloc::{AllocError, Global};
use tmf_lines::{Line, add_line};

/// A list of one line.
pub fn one_line(alloc: Global, line: Line) -> Result<Vec<Line>, AllocError>
    ensures { IfOk result (λ lines. lines.items ≡ line ∷ []) }
{
    let mut lines = Vec::new(alloc);
    add_line(&mut lines, line)?;
    Ok(lines)
}
