//! Shared values.
use crate::common::text;
use mt_containers::Shared;
use mt_tokens::Text;
use std::test::Fail;

/// A value that threads may share.
fn read_in_threads<T: Send + Sync>(_value: &T) {}

#[test]
fn a_shared_value_is_one_value(rt: HostRuntime) -> Result<(), Fail> {
    let text = text(&rt, "x")?;
    let first: Shared<Text> = Shared::new(rt.alloc(), text).ok().ok_or("memory")?;
    let second = first.clone()?;
    assert!(rt; first == second);
    assert!(rt; second.as_str() == "x");
    read_in_threads(&first);
    Ok(())
}
