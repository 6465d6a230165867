//! The example of the page of `count_core`.
use count_core::run_count;
use harvest_core::FreeGate;
use shape_core::Kinds;
use shape_dict::Text;
use std::io::Cursor;
use std::test::Fail;
use tally_core::Settings;

#[test]
fn count_core(rt: HostRuntime) -> Result<(), Fail> {
    let alloc = rt.alloc();
    let settings = Settings::new(2, 4)?.with(Kinds::Squares);
    let mut games = Cursor::new(b"(;SZ[1];B[aa])");
    let mut text = Vec::new(alloc);
    let report = run_count(
        &rt,
        alloc,
        settings,
        Text::One,
        &FreeGate,
        &mut games,
        &mut text,
    );
    assert!(rt; report.is_ok());
    let wanted = b"shapes 1 games 1 moves 1 patterns 1\n3fffffcffffff 1 1\n";
    assert!(rt; text.as_slice() == wanted.as_slice());
    Ok(())
}
