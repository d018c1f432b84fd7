//! Comparisons of tests.

ghost use Rattle.std.specs.Prelude.{◌≡◌, IfOk, IfErr, true, false};

use std::fmt;
use std::fmt::{Debug, Display};

/// Ends the test where two values differ, and shows both, and the case. It is `assert_eq!` by a call of
/// a function that is proved here: that one is written out, and proved, at each place.
#[macro_export]
macro_rules! assert_same {
    ($rt:expr; $left:expr, $right:expr $(,)?) => {
        $crate::assert_same!($rt; $crate::compared(&$left, &$right))
    };
    ($rt:expr; $left:expr, $right:expr, $($case:tt)+) => {
        $crate::assert_same!($rt; $crate::compared_in(&$left, &$right, format_args!($($case)+)))
    };
    ($rt:expr; $compared:expr) => {
        std::panic::Expect::expect($compared, &$rt, "assertion `left == right` failed")
    };
}

/// Two values that differ, and in which case.
#[derive(Drop)]
pub struct Differing<'a, T, C> {
    left: &'a T,
    right: &'a T,
    case: C,
}

impl<'a, T: Debug, C: Display> Debug for Differing<'a, T, C> {
    fn fmt<W: fmt::Write>(&self, f: &mut fmt::Formatter<W>) -> fmt::Result {
        let Differing { left, right, case } = self;
        write!(f, "{case}\n  left: {left:?}\n right: {right:?}")
    }
}

/// Compares two values.
pub fn compared<'a, T: PartialEq>(
    left: &'a T,
    right: &'a T,
) -> Result<(), Differing<'a, T, &'static str>>
    ensures equal { IfOk result (λ _. T.eq left.now right.now ≡ true) }
    ensures differing { IfErr result (λ _. T.eq left.now right.now ≡ false) }
    ensures sides { IfErr result (λ fault. fault.left ≡ left.entry × fault.right ≡ right.entry) }
{
    compared_in(left, right, "")
}

/// Compares two values in a case of a table.
pub fn compared_in<'a, T: PartialEq, C: Drop>(
    left: &'a T,
    right: &'a T,
    case: C,
) -> Result<(), Differing<'a, T, C>>
    ensures equal { IfOk result (λ _. T.eq left.now right.now ≡ true) }
    ensures differing { IfErr result (λ _. T.eq left.now right.now ≡ false) }
    ensures sides { IfErr result (λ fault. fault.left ≡ left.entry × fault.right ≡ right.entry) }
    ensures case { IfErr result (λ fault. fault.case ≡ case) }
{
    if *left == *right {
        return Ok(());
    }
    Err(Differing { left, right, case })
}
