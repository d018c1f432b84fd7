//! A slot, alone and shared.
use bpf_verify::Verified;
use rec_channel::*;
use std::alloc::Global;
use std::sync::{Arc, Wait};
use std::test::Fail;
use std::thread;
use std::thread::Threads;
use test_samples::{assert_same, program};

const ACCEPT: &str = "1,6 0 0 1,";

const REJECT: &str = "1,6 0 0 0,";

/// The constant that a program of one instruction returns.
fn returned(program: &Verified) -> Option<u32> {
    Some(program.insns().first()?.k)
}

#[test]
fn a_frame_meets_the_last_version(rt: HostRuntime) -> Result<(), Fail> {
    let mut slot = Slot::new(rt.alloc(), program(rt.alloc(), REJECT)?, 3)?;
    let first = slot.draw()?;
    assert_eq!(rt; (first.number, first.version), (0, 0));
    assert_eq!(rt; returned(&first.program), Some(0));
    let installed = slot.install(program(rt.alloc(), ACCEPT)?)?;
    assert_eq!(rt; (installed.version, installed.mark), (1, 1));
    let second = slot.draw()?;
    assert_eq!(rt; (second.number, second.version), (1, 1));
    assert_eq!(rt;
        (returned(&second.program), returned(&second.share)),
        (Some(1), Some(1))
    );
    slot.draw()?;
    assert_eq!(rt; slot.draw().err(), Some(DrawFault::CountFull));
    assert_eq!(rt; slot.offered(), 3);
    assert_eq!(rt; slot.marks(), [0, 1].as_slice());
    assert_eq!(rt; slot.versions().len(), 2);
    let parts = slot.into_parts();
    assert_eq!(rt; parts.marks.as_slice(), [0, 1].as_slice());
    assert_eq!(rt; (parts.versions.len(), parts.offered), (2, 3));
    Ok(())
}

#[test]
fn equal_programs_are_versions_of_their_own(rt: HostRuntime) -> Result<(), Fail> {
    let accept = program(rt.alloc(), ACCEPT)?;
    let mut slot = Slot::new(rt.alloc(), Arc::try_clone(&accept)?, 1)?;
    for version in 1..1024 {
        let installed = slot.install(Arc::try_clone(&accept)?)?;
        assert_same!(rt; installed.version, version);
    }
    let Err(InstallFault::VersionsFull { program }) = slot.install(accept) else {
        return Err(Fail::from("a 1025th version"));
    };
    assert_same!(rt; returned(&program), Some(1));
    assert_same!(rt; slot.versions().len(), 1024);
    Ok(())
}

#[test]
fn a_shared_slot_moves_its_callers_on(rt: HostRuntime) -> Result<(), Fail> {
    let slot = SharedSlot::new(Slot::new(rt.alloc(), program(rt.alloc(), ACCEPT)?, 2)?);
    let (installed, front) = slot.install(&rt, program(rt.alloc(), REJECT)?, &Front::START)?;
    assert_same!(rt; (installed.version, installed.mark), (1, 0));
    assert_same!(rt; (front.versions, front.offered), (2, 0));
    let (drawn, front) = slot.draw(&rt, &front)?;
    assert_same!(rt; (drawn.number, drawn.version), (0, 1));
    assert_same!(rt; returned(&drawn.program), Some(0));
    assert_same!(rt; (front.versions, front.offered), (2, 1));
    let ahead = Front {
        versions: 3,
        offered: 0,
    };
    let seen = front;
    assert_same!(rt;
        slot.draw(&rt, &ahead).err(),
        Some(DrawFault::Stale { seen })
    );
    let Err(InstallFault::Stale { program, seen }) = slot.install(
        &rt,
        program(rt.alloc(), ACCEPT)?,
        &ahead,
    ) else {
        return Err(Fail::from("a front that is ahead"));
    };
    assert_same!(rt; (returned(&program), seen), (Some(1), front));
    let parts = slot.into_slot().into_parts();
    assert_same!(rt; (parts.versions.len(), parts.offered), (2, 1));
    Ok(())
}

#[test]
fn a_caller_is_told_of_the_versions_since_its_front(rt: HostRuntime) -> Result<(), Fail> {
    let slot = SharedSlot::new(Slot::new(rt.alloc(), program(rt.alloc(), ACCEPT)?, 3)?);
    let mut front = Front::START;
    let DrawnSince::LaterVersion(drawn) = slot.draw_since(&rt, &mut front)? else {
        return Err(Fail::from("the first version is new"));
    };
    assert_same!(rt; (drawn.number, drawn.version), (0, 0));
    assert_same!(rt; returned(&drawn.program), Some(1));
    let DrawnSince::NoVersion(1) = slot.draw_since(&rt, &mut front)? else {
        return Err(Fail::from("frame 1, under no new version"));
    };
    assert_same!(rt; (front.versions, front.offered), (1, 2));
    slot.install(&rt, program(rt.alloc(), REJECT)?, &Front::START)?;
    let DrawnSince::LaterVersion(drawn) = slot.draw_since(&rt, &mut front)? else {
        return Err(Fail::from("the second version is new"));
    };
    assert_same!(rt; (drawn.number, drawn.version), (2, 1));
    assert_same!(rt; returned(&drawn.share), Some(0));
    assert_same!(rt;
        slot.draw_since(&rt, &mut front).err(),
        Some(DrawFault::CountFull)
    );
    assert_same!(rt; (front.versions, front.offered), (2, 3));
    Ok(())
}

#[test]
fn a_caller_whose_front_is_ahead_draws_nothing(rt: HostRuntime) -> Result<(), Fail> {
    let slot = SharedSlot::new(Slot::new(rt.alloc(), program(rt.alloc(), ACCEPT)?, 3)?);
    let mut front = Front::START;
    slot.draw_since(&rt, &mut front)?;
    let seen = front;
    for &(versions, offered) in &[(2, 0), (2, 1), (1, 2), (0, 3), (u32::MAX, u64::MAX)] {
        let ahead = Front { versions, offered };
        let mut known = ahead;
        assert_same!(rt;
            slot.draw_since(&rt, &mut known).err(),
            Some(DrawFault::Stale { seen })
        );
        assert_same!(rt; known, ahead);
    }
    let DrawnSince::NoVersion(1) = slot.draw_since(&rt, &mut front)? else {
        return Err(Fail::from("frame 1, the next one"));
    };
    let parts = slot.into_slot().into_parts();
    assert_same!(rt; (parts.versions.len(), parts.offered), (1, 2));
    Ok(())
}

/// How many frames each of the two callers draws.
const DRAWS: u64 = 1000;

/// The numbers of a caller's draws.
fn numbers<R: Wait>(rt: &R, alloc: Global, slot: &SharedSlot) -> Option<Vec<u64>> {
    let mut numbers = Vec::new(alloc);
    let mut front = Front::START;
    for _ in 0..DRAWS {
        let (drawn, after) = slot.draw(rt, &front).ok()?;
        numbers.push(drawn.number).ok()?;
        front = after;
    }
    Some(numbers)
}

#[test]
fn two_callers_share_the_numbers(rt: HostRuntime) -> Result<(), Fail> {
    let slot = SharedSlot::new(Slot::new(rt.alloc(), program(rt.alloc(), ACCEPT)?, 2 * DRAWS)?);
    let drawn = thread::map_indices(&rt, rt.alloc(), 2, &|_| numbers(&rt, rt.alloc(), &slot))?;
    let mut all = Vec::new(rt.alloc());
    for numbers in &drawn {
        all.extend_from_slice(numbers.as_ref().ok_or("all frames are drawn")?)?;
    }
    all.sort_unstable();
    for (at, number) in all.iter().enumerate() {
        assert_same!(rt; *number, at as u64);
    }
    assert_same!(rt; all.len(), 2000);
    assert_same!(rt;
        slot.draw(&rt, &Front::START).err(),
        Some(DrawFault::CountFull)
    );
    Ok(())
}

#[test]
fn a_shared_slot_takes_1023_installs_and_all_its_draws(rt: HostRuntime) -> Result<(), Fail> {
    let accept = program(rt.alloc(), ACCEPT)?;
    let slot = SharedSlot::new(Slot::new(rt.alloc(), Arc::try_clone(&accept)?, 10_000)?);
    let mut front = Front::START;
    for version in 1..1024 {
        let (installed, after) = slot.install(&rt, Arc::try_clone(&accept)?, &front)?;
        assert_same!(rt; (installed.version, installed.mark), (version, 0));
        front = after;
    }
    let Err(InstallFault::VersionsFull { .. }) = slot.install(&rt, accept, &front) else {
        return Err(Fail::from("a 1025th version"));
    };
    for number in 0..10_000 {
        let (drawn, after) = slot.draw(&rt, &front)?;
        assert_same!(rt; (drawn.number, drawn.version), (number, 1023));
        front = after;
    }
    assert_same!(rt; slot.draw(&rt, &front).err(), Some(DrawFault::CountFull));
    assert_same!(rt; (Front::START.versions, Front::START.offered), (0, 0));
    Ok(())
}
