//! A program that is laid out beside the program itself, on drawn programs.

ghost use Rattle.std.specs.Prelude.{◌≤◌, length};

use crate::draws::Draws;
use bpf_machine::{MAX_VIEW, Prepared, run};
use bpf_verify::{Verified, verify};
use std::process::Abort;
use std::test::Fail;
use test_samples::assert_same;

/// How many programs are drawn.
const PROGRAMS: usize = 10_000;
/// The seed that they are drawn from.
const SEED: u64 = 20261123;
/// How many of them have to be valid at least, and how many of those have to return another value
/// than 0.
const MANY: usize = 2000;

/// What is laid out returns the program's value, on a view of the same number of bytes as the
/// program's offsets or fewer; each program is laid out in place of the one before.
#[test]
fn values_agree_on_drawn_programs(rt: HostRuntime) -> Result<(), Fail> {
    let alloc = rt.alloc();
    let mut draws = Draws::from_seed(SEED);
    let mut prepared = Prepared::with_room(alloc)?;
    let mut valid = 0usize;
    let mut others = 0usize;
    for _ in 0..PROGRAMS {
        let program = draws.running_program(alloc)?;
        let bytes = [0u8; 8].map(|_| draws.below(4));
        let view = front(&bytes, draws.below(9));
        if let Ok(program) = verify(program) {
            let value = value_of(&mut prepared, &program, view);
            assert_same!(rt; value, run(&program, view).value);
            valid = valid.saturating_add(1);
            others = others.saturating_add(usize::from(value != 0));
        }
    }
    assert!(rt;
        valid >= MANY && others >= MANY,
        "{valid} are valid, {others} return more than 0"
    );
    Ok(())
}

/// What a program returns on a view when it is laid out in place of the one before.
fn value_of(prepared: &mut Prepared, program: &Verified, view: &[u8]) -> u32
    requires { length view.now ≤ MAX_VIEW }
{
    prepared.prepare(program);
    prepared.value(view)
}

/// So many of the bytes.
fn front(bytes: &[u8; 8], count: u8) -> &[u8]
    ensures { length result.now ≤ 8 }
{
    bytes.get(..usize::from(count)).unwrap_or(&[])
}
