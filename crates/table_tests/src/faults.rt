//! The texts of faults that no program shows.
use probe_core::ProbeFault;
use slot_table::SlotFault;
use std::test::Fail;

#[test]
fn faults_have_texts(rt: HostRuntime) -> Result<(), Fail> {
    let texts = format!(in rt.alloc();
        "{}, {}, {}",
        ProbeFault::Memory,
        ProbeFault::TooLong,
        SlotFault::Memory
    )?;
    assert!(rt; texts.as_str() == "P1 no memory, P2 too many events, Q1 no memory");
    Ok(())
}
