// Worked cases. Each is run and compared with the definition's value, which a small function states as its contract:
// that function is proved, so its number is the definition's.
ghost use Rattle.std.specs.Prelude.{◌≡◌, pos, negsuc};
ghost use Rattle.rankings.specs.Choice.{is_cheaper};
ghost use Rattle.rankings.specs.Costs.{largest_divisor, ranked_part};
ghost use Rattle.rankings.specs.Models.{both_down, both_up, by_money, by_money_then_minutes, by_weight, counted_rate};

use super::*;

const HALF: Divisor = Divisor { by: 2 };

// -7 and 7 by 2, taken down.
fn halves_down() -> (i64, i64)
    ensures { result ≡ both_down (negsuc 6, pos 7) 2 }
{
    (-4, 3)
}

// -7 and 7 by 2, taken up.
fn halves_up() -> (i64, i64)
    ensures { result ≡ both_up (negsuc 6, pos 7) 2 }
{
    (-3, 4)
}

// The quotient goes down or up on either side of zero, by each ranking alike.
#[test]
fn rounds_past_zero(rt: HostRuntime) {
    assert_eq!(rt; Money.round_cheap((-7, 7), HALF), halves_down());
    assert_eq!(rt; Money.round_dear((-7, 7), HALF), halves_up());
    assert_eq!(rt; MoneyThenMinutes.round_cheap((-7, 7), HALF), halves_down());
    assert_eq!(rt; MoneyThenMinutes.round_dear((-7, 7), HALF), halves_up());
    assert_eq!(rt;
        Weighed { rate: 3 }.round_cheap((-7, 7), HALF),
        halves_down()
    );
    assert_eq!(rt; Weighed { rate: 3 }.round_dear((-7, 7), HALF), halves_up());
}

// The code's limits are the definitions'.
fn ranked_part() -> i64
    ensures { result ≡ pos ranked_part }
{
    RANKED_PART
}

fn largest_divisor() -> Divisor
    ensures { result.by ≡ largest_divisor }
{
    Divisor {
        by: LARGEST_DIVISOR,
    }
}

#[test]
fn rounds_at_the_limits(rt: HostRuntime) {
    let part = ranked_part();
    let share = (10_000_000_000, -10_000_000_000);
    assert_eq!(rt; Money.round_cheap((part, -part), largest_divisor()), share);
    assert_eq!(rt; Money.round_dear((part, -part), largest_divisor()), share);
}

// Money only sees no difference in the minutes.
fn equal_by_money() -> bool
    ensures forth { result ≡ by_money (pos 10, pos 5) (pos 10, pos 3) }
    ensures back { result ≡ by_money (pos 10, pos 3) (pos 10, pos 5) }
{
    true
}

// Money then minutes does.
fn cheaper_by_minutes() -> bool
    ensures { result ≡ is_cheaper by_money_then_minutes (pos 10, pos 3) (pos 10, pos 5) }
{
    true
}

#[test]
fn equal_money(rt: HostRuntime) {
    assert_eq!(rt; Money.no_dearer((10, 5), (10, 3)), equal_by_money());
    assert_eq!(rt; Money.no_dearer((10, 3), (10, 5)), equal_by_money());
    assert_eq!(rt;
        MoneyThenMinutes.cheaper((10, 3), (10, 5)),
        cheaper_by_minutes()
    );
    assert_eq!(rt;
        MoneyThenMinutes.dearer((10, 5), (10, 3)),
        cheaper_by_minutes()
    );
}

// A rate of 0 counts as 1: a minute weighs as much as a cent.
fn minute_as_cent() -> bool
    ensures forth { result ≡ by_weight (counted_rate (pos 0)) (pos 0, pos 1) (pos 1, pos 0) }
    ensures back { result ≡ by_weight (counted_rate (pos 0)) (pos 1, pos 0) (pos 0, pos 1) }
{
    true
}

// A rate of 500 counts as 200: a minute weighs as much as 200 cents.
fn minute_as_two_hundred() -> bool
    ensures forth { result ≡ by_weight (counted_rate (pos 500)) (pos 0, pos 1) (pos 200, pos 0) }
    ensures back { result ≡ by_weight (counted_rate (pos 500)) (pos 200, pos 0) (pos 0, pos 1) }
{
    true
}

#[test]
fn rates_outside(rt: HostRuntime) {
    assert_eq!(rt;
        Weighed { rate: 0 }.no_dearer((0, 1), (1, 0)),
        minute_as_cent()
    );
    assert_eq!(rt;
        Weighed { rate: 0 }.no_dearer((1, 0), (0, 1)),
        minute_as_cent()
    );
    assert_eq!(rt;
        Weighed { rate: 500 }.no_dearer((0, 1), (200, 0)),
        minute_as_two_hundred()
    );
    assert_eq!(rt;
        Weighed { rate: 500 }.no_dearer((200, 0), (0, 1)),
        minute_as_two_hundred()
    );
}

// Among equals the first stays.
#[test]
fn first_of_equals(rt: HostRuntime) {
    assert_eq!(rt; first_cheapest(&Money, &[(9, 0), (8, 2), (8, 1)]), Some(1));
    assert_eq!(rt;
        first_cheapest(&MoneyThenMinutes, &[(9, 0), (8, 2), (8, 1)]),
        Some(2)
    );
    assert_eq!(rt; first_cheapest(&Money, &[]), None);
}
