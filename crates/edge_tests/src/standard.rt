//! The standard streams, the clocks and the texts of faults.
use grid_base::Memory;
use grid_edge::{
    Clock, DoorFault, FixedClock, ReadFault, Source, StdClock, StdSink, StdSource, WriteFault,
    write_all,
};
use std::io;
use std::time::{self, Duration};

#[test]
fn standard_input_ends(rt: HostRuntime) {
    let mut source = StdSource::new(rt.stdin());
    assert_eq!(rt; source.read(&mut [0; 8]), Ok(0));
}

#[test]
fn standard_output_takes_bytes(rt: HostRuntime) {
    let mut sink = StdSink::new(rt.stdout());
    assert_eq!(rt;
        write_all(&mut sink, b"standard output takes bytes\n"),
        Ok(())
    );
}

#[test]
fn faults_have_a_text(rt: HostRuntime) -> Result<(), Memory> {
    let texts = format!(in rt.alloc(); "{ReadFault}; {WriteFault}; {DoorFault}")?;
    assert_eq!(rt;
        texts.as_str(),
        "reading failed; writing failed; the doors failed"
    );
    Ok(())
}

/// A clock that stands at this time since 1970, or can't be read.
#[derive(Clone, Copy)]
struct Standing(Option<Duration>);

impl time::Clock for Standing {
    fn monotonic(&self) -> io::Result<Duration> {
        self.since_1970()
    }

    fn since_1970(&self) -> io::Result<Duration> {
        self.0.ok_or(io::Error::from(io::ErrorKind::Unsupported))
    }
}

/// The moment where the system's clock shows this.
fn moment_at(shown: Option<Duration>) -> u64 {
    let mut clock = StdClock::new(Standing(shown));
    clock.moment()
}

#[test]
fn clocks_count_milliseconds_since_1970(rt: HostRuntime) {
    let moments = [
        moment_at(Some(Duration::from_micros(86_400_001_999))),
        moment_at(Some(Duration::from_secs(u64::MAX / 2))),
        moment_at(None),
        FixedClock::new(7).moment(),
    ];
    assert_eq!(rt; moments, [86_400_001, u64::MAX, 0, 7]);
    // The first of January 2020.
    assert!(rt; StdClock::new(&rt).moment() > 1_577_836_800_000);
}
