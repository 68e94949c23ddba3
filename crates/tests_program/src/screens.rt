//! Lines on a screen of few columns.

use program_streams::Narrow;
use std::io::Write;
use std::test::Fail;

#[test]
fn a_word_that_is_dropped_leaves_blanks(rt: HostRuntime) -> Result<(), Fail> {
    let mut screen = Narrow::new(Vec::new(rt.alloc()), Some("20"));
    screen.write_all(b"\rdurable 9 epoch 10")?;
    screen.write_all(b"\rdurable 99 epoch 100")?;
    let expected = b"\rdurable 9 epoch 10\rdurable 99 epoch   ".as_slice();
    assert_eq!(rt; screen.stream().as_slice(), expected);
    Ok(())
}

#[test]
fn a_line_that_stays_is_not_cut(rt: HostRuntime) -> Result<(), Fail> {
    let mut screen = Narrow::new(Vec::new(rt.alloc()), Some("20"));
    screen.write_all(b"\rdurable 99 epoch 100\n")?;
    assert_eq!(rt;
        screen.stream().as_slice(),
        b"\rdurable 99 epoch 100\n".as_slice()
    );
    Ok(())
}
