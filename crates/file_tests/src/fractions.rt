// How many whole hundredths of some work are done.
use notify::Progress;
use std::test::Fail;
use test_support::{cut, expect};

/// What is done, of how much, and how many hundredths that is.
const FRACTIONS: &str = "29 100 29
0 0 0
1 3 33
2 3 66
3 3 100
18446744073709551614 18446744073709551615 99
18446744073709551615 18446744073709551615 100";

fn fraction_agrees(line: &str) -> bool {
    let (done, rest) = cut(line, " ");
    let (total, want) = cut(rest, " ");
    let (Ok(done), Ok(total)) = (done.parse::<u64>(), total.parse::<u64>()) else {
        return false;
    };
    if total < done {
        return false;
    }
    Ok(Progress::fraction(done, total)) == want.parse::<u32>()
}

#[test]
fn hundredths_are_rounded_down(_rt: HostRuntime) -> Result<(), Fail> {
    for line in FRACTIONS.lines() {
        expect(line, fraction_agrees(line))?;
    }
    Ok(())
}
