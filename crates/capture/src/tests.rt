// What no contract says of a fill: how much it asks its source for.
use crate::intake::{Intake, SIZE};
use std::test::Fail;

// All that there is room for. A source that hands out messages, as some sockets do, drops what one read does not ask for of a message.
#[test]
fn fill_asks_for_all_the_room(rt: HostRuntime) -> Result<(), Fail> {
    let bytes = vec![in rt.alloc(); 7u8; SIZE + 200]?;
    let mut source = bytes.as_slice();
    let mut intake = Intake::new(rt.alloc())?;
    assert_eq!(rt; intake.fill(&mut source)?, SIZE);
    intake.discard(126);
    assert_eq!(rt; intake.fill(&mut source)?, 126);
    intake.discard(SIZE);
    assert_eq!(rt; intake.fill(&mut source)?, 74);
    assert_eq!(rt; intake.fill(&mut source)?, 0);
    assert_eq!(rt; intake.bytes().len(), 74);
    Ok(())
}
