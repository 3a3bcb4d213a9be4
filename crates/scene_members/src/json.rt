//! The JSON value of a text's bytes.
ghost use Rattle.std.specs.Prelude.{◌≡◌, ◌≢◌, Some, None, Ok, Err, IfOk, IfErr};
ghost use Rattle.ccp_base.specs.Outside.{no_memory};
ghost use Rattle.serde_json.specs.View.{view};
ghost use Rattle.serde_json.specs.Read.{read};
ghost use Rattle.scene_members.specs.Whole.{value_of_bytes};
ghost use Rattle.scene_members.specs.declared.fault.MemberFault.TheVariants as fault;

use crate::fault::MemberFault;
use serde_json::{Category, Value};
use std::alloc::{AllocError, Global};
use std::str::from_utf8;

fn json_value(alloc: Global, text: &str) -> Result<Value, MemberFault>
    ensures ok { IfOk result (λ v. read text.now ≡ Some (view v)) }
    ensures err { IfErr result (λ e. e ≢ fault.NoMemory no_memory → e ≡ fault.Json) }
    ensures none { IfErr result (λ e. e ≢ fault.NoMemory no_memory → read text.now ≡ None) }
{
    match Value::from_str(alloc, text) {
        Ok(value) => Ok(value),
        Err(error) => match error.classify() {
            // by this category serde_json reports a refused growth
            Category::Memory => Err(MemberFault::from(AllocError)),
            _ => Err(MemberFault::Json),
        },
    }
}

/// The value that a text is; bytes that are no text have none.
#[tactic(auto, using(crate::proofs::TextLemmas::text_values))]
pub fn value_in(alloc: Global, text: &[u8]) -> Result<Value, MemberFault>
    ensures ok { IfOk result (λ v. value_of_bytes text.now ≡ Ok (view v)) }
    ensures err { IfErr result (λ e. e ≢ fault.NoMemory no_memory → value_of_bytes text.now ≡ Err e) }
{
    match from_utf8(text) {
        Ok(text) => json_value(alloc, text),
        Err(_) => Err(MemberFault::Json),
    }
}
