//! Instructions of a code that a row writes by hand, in the form that codes have.
use reg_code::{Instr, Packed, Sequence};
use std::alloc::{AllocError, Global};

/// Instructions in their packed form, in order.
pub(crate) fn pack_all(alloc: Global, instrs: &[Instr]) -> Result<Sequence<Packed>, AllocError> {
    let mut packed = Sequence::from_vec(Vec::with_capacity(alloc, instrs.len())?);
    for instr in instrs {
        packed.push(Packed::new(*instr))?;
    }
    Ok(packed)
}
