use link_frames::{ANSWER_LENGTH, Hello, Role, Secret};
use std::alloc::Global;
use std::test::Fail;

/// What the member that calls answers, with the hellos below.
const OF_THE_CALLER: &[u8] =
    b"\xb3\xda\x02\x03\xfc\xfe \xc1\x9e\xbc\x8b3\xf2\x83\xb5U\xff\xf9\x0c\x0db\x90\x9b\xe1\
     2\xde\x1f\x06\xabV^;";

/// What the member answers that is called.
const OF_THE_CALLED: &[u8] =
    b"]\xc0U\xa7\x89\x15\x1bD\x0e\xac\xf9\x9bB.\xe5;\x0f@\xb8.\xe05(\x88\x80&\xb8\x11\x1b\
     \x93 \xb2";

fn hello(member: u8, peer: u8, process: u64, letter: u8) -> Hello {
    Hello {
        grid: [b'G'; 32],
        member,
        peer,
        process,
        challenge: [letter; 32],
    }
}

/// What an end answers whose hello comes first of the two.
fn answer(
    alloc: Global,
    role: Role,
    own: &Hello,
    other: &Hello,
) -> Result<[u8; ANSWER_LENGTH], Fail> {
    let secret = Secret::new(b"a grid's secret")?;
    Ok(secret.answer(alloc, role, own, other)?)
}

#[test]
fn each_end_answers_the_other(rt: HostRuntime) -> Result<(), Fail> {
    let caller = hello(1, 2, 7, b'a');
    let called = hello(2, 1, 9, b'b');
    let first = answer(rt.alloc(), Role::Calls, &caller, &called)?;
    assert_eq!(rt; first.as_slice(), OF_THE_CALLER);
    let second = answer(rt.alloc(), Role::IsCalled, &called, &caller)?;
    assert_eq!(rt; second.as_slice(), OF_THE_CALLED);
    Ok(())
}

#[test]
fn no_end_answers_with_its_own_question(rt: HostRuntime) -> Result<(), Fail> {
    let caller = hello(1, 2, 7, b'a');
    let called = hello(2, 1, 9, b'b');
    let secret = Secret::new(b"a grid's secret")?;
    let given = answer(rt.alloc(), Role::Calls, &caller, &called)?;
    assert!(rt; secret.is_answer(rt.alloc(), Role::Calls, &caller, &called, &given)?);
    assert!(rt; !secret.is_answer(rt.alloc(), Role::IsCalled, &caller, &called, &given)?);
    assert!(rt; !secret.is_answer(rt.alloc(), Role::Calls, &called, &caller, &given)?);
    Ok(())
}
