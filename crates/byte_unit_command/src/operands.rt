//! The operands as an input.

ghost use Rattle.std.specs.Prelude.{IfOk, map};
ghost use Rattle.byte_unit_command.specs.Operands.{HasOperands};

use std::alloc::{AllocError, Global};

/// Returns the operands as an input: each is a record that ends with a zero byte, which no operand contains.
///
/// # Errors
///
/// Returns `AllocError` if allocation fails.
pub fn joined(alloc: Global, operands: &[&str]) -> Result<Vec<u8>, AllocError>
    ensures { IfOk result
        (λ input. HasOperands (map (λ operand. operand.now) operands.now) input.items) }
{
    let mut input = Vec::new(alloc);
    for operand in operands {
        input.extend_from_slice(operand.as_bytes())?;
        input.push(0)?;
    }
    Ok(input)
}
