//! A law: this crate's constants are the numbers of the rules.
ghost use Rattle.std.specs.Prelude.{◌≡◌};
ghost use Rattle.ccp_base.specs.Limits.{most_fields, most_name_bytes, most_pairs, most_steps, primitive_count};

use crate::ack::PRIMITIVES;
use crate::fields::PAIRS;
use crate::name::NAME_BYTES;
use crate::values::VALUES;
use crate::{FIELDS, STEPS};

/// The constants of this crate are the numbers of the rules.
pub fn limits_hold()
    ensures fields { FIELDS ≡ most_fields }
    ensures primitives { PRIMITIVES ≡ primitive_count }
    ensures pairs { PAIRS ≡ most_pairs }
    ensures name_bytes { NAME_BYTES ≡ most_name_bytes }
    ensures values { VALUES ≡ most_fields }
    ensures steps { STEPS ≡ most_steps }
{}
