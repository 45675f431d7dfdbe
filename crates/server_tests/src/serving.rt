use crate::client::{PINGED_AT_0, answers_at_2, pings, puts_and_gets};
use crate::hall::{Guests, guest, run};
use grid_cli::Status;
use grid_edge::MemoryDoors;
use partition_threads::OpenGate;
use std::test::Fail;

#[test]
fn words_that_are_no_options_run_nothing(rt: HostRuntime) -> Result<(), Fail> {
    let alloc = rt.alloc();
    let doors: Guests = MemoryDoors::new(Vec::new(alloc), Vec::new(alloc))?;
    let ran = run(
        &rt,
        alloc,
        &["serve", "--members", "9"],
        b"end\n",
        doors,
        &OpenGate,
    )?;
    assert_eq!(rt; ran.status, Status::Usage);
    assert!(rt; ran.told.is_empty());
    assert!(rt; !ran.has_grid && !ran.is_closed);
    Ok(())
}

#[test]
fn doors_that_do_not_open_end_it(rt: HostRuntime) -> Result<(), Fail> {
    let alloc = rt.alloc();
    let doors: Guests = MemoryDoors::new(Vec::new(alloc), vec![in alloc; 0]?)?;
    let ran = run(&rt, alloc, &["serve"], b"end\n", doors, &OpenGate)?;
    assert_eq!(rt; ran.status, Status::DoorFault);
    assert!(rt; ran.told.is_empty());
    Ok(())
}

#[test]
fn doors_that_fail_later_let_the_script_end(rt: HostRuntime) -> Result<(), Fail> {
    let alloc = rt.alloc();
    let doors: Guests = MemoryDoors::new(Vec::new(alloc), vec![in alloc; 1]?)?;
    let ran = run(
        &rt,
        alloc,
        &["serve"],
        b"# it goes on\nend\n",
        doors,
        &OpenGate,
    )?;
    assert_eq!(rt; ran.status, Status::DoorFault);
    assert_eq!(rt; ran.told.as_slice(), b"1 ok\n2 ok\n".as_slice());
    assert!(rt; ran.has_grid && !ran.is_closed);
    Ok(())
}

#[test]
fn a_control_script_without_clients(rt: HostRuntime) -> Result<(), Fail> {
    let alloc = rt.alloc();
    let doors: Guests = MemoryDoors::new(Vec::new(alloc), Vec::new(alloc))?;
    let script = b"crash 2\ndetect 2\nadvance 5\nend\n";
    let ran = run(&rt, alloc, &["serve"], script, doors, &OpenGate)?;
    assert_eq!(rt; ran.status, Status::Done);
    assert_eq!(rt;
        ran.told.as_slice(),
        b"1 ok\n2 ok\n3 nothing\n4 ok\n".as_slice()
    );
    assert!(rt; ran.has_grid && ran.is_closed);
    Ok(())
}

#[test]
fn two_clients_are_answered_and_given_back(rt: HostRuntime) -> Result<(), Fail> {
    let alloc = rt.alloc();
    let mut guests = Vec::new(alloc);
    guests.push(guest(alloc, 2, puts_and_gets(alloc)?))?;
    guests.push(guest(alloc, 0, pings(alloc)?))?;
    let doors = MemoryDoors::new(guests, Vec::new(alloc))?;
    let ran = run(&rt, alloc, &["serve"], b"end\n", doors, &OpenGate)?;
    assert_eq!(rt; ran.status, Status::Done);
    assert_eq!(rt; ran.told.as_slice(), b"1 ok\n".as_slice());
    assert_eq!(rt; ran.doors.returned().len(), 2);
    let answers = answers_at_2(alloc)?;
    for given in ran.doors.returned() {
        assert!(rt; !given.memory);
        let wanted = if given.number == 0 {
            answers.as_slice()
        } else {
            PINGED_AT_0
        };
        assert_eq!(rt; given.to.stream().bytes(), wanted);
    }
    Ok(())
}
