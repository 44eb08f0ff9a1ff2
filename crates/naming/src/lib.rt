//! Operations by what people write for them.
#![tactic(auto)]

ghost use Rattle.naming.specs.Naming.{Named, NamedAt, NamedBy};
ghost use Rattle.std.specs.Prelude.{IfOk};

use codes::bytes::Coded;
use operations::operation::Operation;
use std::alloc::{AllocError, Global};

fn named_at(
    heap: Global,
    number: u8,
    argument: u8,
    text: &str,
) -> Result<Option<Operation>, AllocError>
    ensures { IfOk result (NamedAt number argument text.now) }
{
    let Some(operation) = Operation::decode(&[number, argument]) else {
        return Ok(None);
    };
    let written = operation.to_string(heap)?;
    Ok((written.as_str() == text).then_some(operation))
}

// A loop, since `find_map` could not pass on that memory ran out.
fn named_by(heap: Global, number: u8, text: &str) -> Result<Option<Operation>, AllocError>
    ensures { IfOk result (NamedBy number text.now) }
{
    for argument in 0..=u8::MAX {
        if let Some(operation) = named_at(heap, number, argument, text)? {
            return Ok(Some(operation));
        }
    }
    Ok(None)
}

// The operation that is written so: found by writing every lawful one, of which there are under a thousand.
pub fn operation_named(heap: Global, text: &str) -> Result<Option<Operation>, AllocError>
    ensures { IfOk result (Named text.now) }
{
    for number in 0..51 {
        if let Some(operation) = named_by(heap, number, text)? {
            return Ok(Some(operation));
        }
    }
    Ok(None)
}
