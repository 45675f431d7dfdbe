use event_codecs::Registration;
use grid_base::{Bytes, Memory};
use listeners::Listeners;
use std::alloc::Global;
use std::test::Fail;

fn entries(alloc: Global, map: &[u8]) -> Result<Registration, Memory> {
    let name = Bytes::copied_from(alloc, map)?;
    Ok(Registration::Entries {
        correlation: 4,
        name,
        with_value: false,
    })
}

/// Connection 9 listens to the rows and to `m`, and connection 5 to `n`.
fn listening(alloc: Global) -> Result<Listeners, Memory> {
    let mut listeners = Listeners::new(alloc);
    listeners.add(9, Registration::Rows { correlation: 9 })?;
    listeners.add(9, entries(alloc, b"m")?)?;
    listeners.add(5, entries(alloc, b"n")?)?;
    Ok(listeners)
}

/// Whether somebody listens to the map.
fn is_heard(alloc: Global, listeners: &Listeners, map: &[u8]) -> Result<bool, Memory> {
    Ok(listeners.is_heard(&Bytes::copied_from(alloc, map)?))
}

#[test]
fn who_is_heard_is_known(rt: HostRuntime) -> Result<(), Fail> {
    let mut listeners = listening(rt.alloc())?;
    for (map, heard) in [(b"m", true), (b"n", true), (b"o", false)] {
        assert_eq!(rt; is_heard(rt.alloc(), &listeners, map)?, heard, "{map:?}");
    }
    listeners.drop_connection(5);
    assert!(rt; !is_heard(rt.alloc(), &listeners, b"n")?);
    Ok(())
}
