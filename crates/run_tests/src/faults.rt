//! The texts of those faults of a harvest that no program prints.
use harvest_faults::HarvestFault;
use std::alloc::{AllocError, Global};
use std::test::Fail;

/// Whether the fault has this text. `AllocError` if memory for the text was refused.
fn says(alloc: Global, fault: HarvestFault, text: &str) -> Result<bool, AllocError> {
    Ok(fault.to_string(alloc)?.as_str() == text)
}

#[test]
fn faults_that_no_program_has_are_told(rt: HostRuntime) -> Result<(), Fail> {
    for (fault, text) in [
        (HarvestFault::Missing(3), "F2 missing game 3"),
        (HarvestFault::Twice(30), "F3 game 30 twice"),
        (
            HarvestFault::Stranger {
                number: 5,
                of_share: None,
                of_table: None,
            },
            "F4 stranger at number 5",
        ),
        (HarvestFault::BadSettings, "F5 bad settings"),
        (HarvestFault::Overflow, "F8 count too large"),
        (
            HarvestFault::Marks {
                number: 2,
                of_shares: None,
                of_table: Some(0),
            },
            "F9 mark differs at number 2",
        ),
    ] {
        assert!(rt; says(rt.alloc(), fault, text)?, "{text}");
    }
    Ok(())
}
