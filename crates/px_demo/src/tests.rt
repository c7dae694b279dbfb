//! There is memory for the demo's script.
use crate::demo_script;
use px_base::NoMemory;
use std::rt::HostRuntime;

#[test]
fn there_is_memory_for_a_script(rt: HostRuntime) -> Result<(), NoMemory> {
    let script = demo_script(rt.alloc(), 12, 7)?;
    assert!(&rt; script.as_slice().starts_with(b"building\n".as_slice()));
    Ok(())
}
