use crate::filings::*;
use crate::plans::*;
use crate::shops::*;
use planner::{improve_once, improve_rounds, take_filing};
use rankings::{Money, MoneyThenMinutes, Weighed};
use std::test::Fail;
use table::{FiledLine, check_filing};

#[test]
fn rounds_of_improvement(rt: HostRuntime) -> Result<(), Fail> {
    let page = started(&Money, TWO_GRADES)?;
    let round = improve_once(&Money, &page);
    assert!(rt; round.gave_way == 1);
    for Improved { rounds, lines } in &TWO_GRADES_IMPROVED {
        let improved = improve_rounds(&Money, &page, *rounds);
        assert!(rt;
            improved.gave_way == 1 && shows(&improved.page, lines),
            "{rounds} rounds"
        );
    }
    assert!(rt; shows(&round.page, TWO_GRADES_IMPROVED[0].lines));
    Ok(())
}

/// A filing that the check takes shows its own lines.
#[test]
fn filings_answered(rt: HostRuntime) -> Result<(), Fail> {
    let page = started(&Money, TWO_GRADES)?;
    for (k, filing) in FILINGS.iter().enumerate() {
        let checked = check_filing(&Money, &page.sound, filing.lines);
        let taken = take_filing(&Money, &page, filing.lines);
        let due = filing.answer;
        assert!(rt;
            answered(checked, due.map(|_| filing.lines)) && answered(taken, due),
            "filing {k}, from 0"
        );
    }
    Ok(())
}

/// Rows 1 and 2 cost the same money; row 2 takes fewer minutes.
#[test]
fn minutes_ranked(rt: HostRuntime) -> Result<(), Fail> {
    let first = [FiledLine {
        row: 1,
        floor: (10, 5),
        ceiling: (10, 5),
    }];
    let second = [FiledLine {
        row: 2,
        floor: (10, 3),
        ceiling: (10, 3),
    }];
    assert!(rt; shows(&swept(&Money, ONE_GRADE)?, &first));
    assert!(rt; shows(&swept(&MoneyThenMinutes, ONE_GRADE)?, &second));
    assert!(rt; shows(&swept(&Weighed { rate: 1 }, ONE_GRADE)?, &second));
    Ok(())
}
