//! Where programs keep what agents read and write.
ghost use Rattle.std.specs.Prelude.{◌<◌};
ghost use Rattle.std.specs.Option.{ForSome};

use crate::texts::program;
use ccp_base::Look;
use portus_build::builtin;
use portus_build::calls::look;
use std::alloc::Global;
use std::test::Fail;

/// A look of the fields of the built-in programs, with these control variables.
fn builtin_look(cap: Option<u32>, mss: Option<u32>) -> Look
    requires cap { ForSome cap (λ n. n < 64) }
    requires mss { ForSome mss (λ n. n < 64) }
{
    Look {
        acked: Some(0),
        loss: Some(2),
        timeout: Some(3),
        rtt: Some(4),
        inflight: Some(5),
        cap,
        mss,
        ecn: Some(6),
    }
}

/// Whether a built-in program has this look.
fn has_look(alloc: Global, number: u32, want: Look) -> Result<bool, Fail> {
    if number >= 3 {
        return Ok(false);
    }
    Ok(look(&program(alloc, builtin(number))?) == want)
}

#[test]
fn looks_of_the_built_in_programs(rt: HostRuntime) -> Result<(), Fail> {
    assert!(rt; has_look(rt.alloc(), 0, builtin_look(Some(0), Some(1)))?);
    assert!(rt; has_look(rt.alloc(), 1, builtin_look(None, None))?);
    assert!(rt; has_look(rt.alloc(), 2, builtin_look(None, None))?);
    Ok(())
}

#[test]
fn a_look_finds_only_declared_names(rt: HostRuntime) -> Result<(), Fail> {
    let text = b"(def (mss 1) (Report (cap 0) (rtt 0) (acked 0)) (loss 0) (cap 2))";
    let seen = look(&program(rt.alloc(), text)?);
    let want = Look {
        acked: Some(2),
        loss: None,
        timeout: None,
        rtt: Some(1),
        inflight: None,
        cap: Some(2),
        mss: Some(0),
        ecn: None,
    };
    assert!(rt; seen == want);
    Ok(())
}
