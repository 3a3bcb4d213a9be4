//! The generated campaign, of which `soak` prints the sums alone.
use flow_core::Case;
use scenario_json::Scenario;
use scenario_json::calls::soak;
use std::test::Fail;

/// Whether there are 64 cases, and the first one's name and acknowledgements are these.
fn begin_with(cases: &[Case], name: &[u8], acks: u32) -> bool {
    match cases.first() {
        Some(case) => cases.len() == 64 && case.acks == acks && case.name.as_slice() == name,
        None => false,
    }
}

/// Whether a scene is the one generated of number 1, by its counts and its first case.
fn is_of_number_1(scene: &Scenario) -> bool {
    scene.programs.len() == 3 && begin_with(scene.cases.as_slice(), b"s0", 2584)
}

#[test]
fn the_first_generated_case_of_number_1(rt: HostRuntime) -> Result<(), Fail> {
    let scene = soak(rt.alloc(), 1)?;
    let is_generated = is_of_number_1(&scene);
    drop(scene);
    assert!(rt; is_generated);
    Ok(())
}
