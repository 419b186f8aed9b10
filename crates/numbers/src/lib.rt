// Number rules: fixed ends, and a difference of two numbers that lies between them, or none.
#![tactic(auto)]

ghost use Rattle.std.specs.Prelude.{◌≡◌, ℤ, pos, refl};
ghost use Rattle.numbers.specs.Rule.{Rule, least32, most32, within};
ghost use Rattle.numbers.specs.Rules.{strict, java, clock};

// Every rule owes the laws that the record `Rule` holds, and has its ends as constants.
pub trait NumberRule {
    ghost LOW: { ℤ };

    const LOW: i32;

    ghost HIGH: { ℤ };

    const HIGH: i32;

    ghost rule: { Rule };

    fn difference(a: i32, b: i32) -> Option<i32>
        ensures { result ≡ rule.difference a b };

    ghost low_is: { LOW ≡ rule.low };

    ghost high_is: { HIGH ≡ rule.high };
}

// All 32 bits; no difference where it would not fit.
pub struct Strict;

impl NumberRule for Strict {
    ghost LOW = { least32 };

    const LOW: i32 = i32::MIN;

    ghost HIGH = { most32 };

    const HIGH: i32 = i32::MAX;

    ghost rule = { strict };

    ghost low_is = { refl };

    ghost high_is = { refl };

    fn difference(a: i32, b: i32) -> Option<i32> {
        a.checked_sub(b)
    }
}

// All 32 bits, modulo 2^32.
pub struct Java;

impl NumberRule for Java {
    ghost LOW = { least32 };

    const LOW: i32 = i32::MIN;

    ghost HIGH = { most32 };

    const HIGH: i32 = i32::MAX;

    ghost rule = { java };

    ghost low_is = { refl };

    ghost high_is = { refl };

    fn difference(a: i32, b: i32) -> Option<i32> {
        Some(a.wrapping_sub(b))
    }
}

// The minutes of a day, 0 to 1439, modulo 1440.
pub struct Clock;

impl NumberRule for Clock {
    ghost LOW = { pos 0 };

    const LOW: i32 = 0;

    ghost HIGH = { pos 1439 };

    const HIGH: i32 = 1439;

    ghost rule = { clock };

    ghost low_is = { refl };

    ghost high_is = { refl };

    fn difference(a: i32, b: i32) -> Option<i32> {
        let day = Self::LOW..=Self::HIGH;
        if day.contains(&a) && day.contains(&b) {
            Some((a - b).rem_euclid(Self::HIGH + 1))
        } else {
            None
        }
    }
}

// Whether `z` lies between the rule's ends.
#[tactic(auto, unfolding(crate::specs::Rule::within))]
pub fn is_within<N: NumberRule>(z: i32) -> bool
    ensures { result ≡ within N.NumberRule.rule z }
{
    (N::LOW..=N::HIGH).contains(&z)
}

#[cfg(test)]
mod tests {
    use super::*;

    #[test]
    fn differences_at_the_ends(rt: HostRuntime) {
        assert_eq!(rt; Strict::difference(i32::MAX, -1), None);
        assert_eq!(rt; Strict::difference(i32::MIN, -1), Some(i32::MIN + 1));
        assert_eq!(rt; Java::difference(i32::MAX, -1), Some(i32::MIN));
        assert_eq!(rt; Clock::difference(0, 1), Some(1439));
        assert_eq!(rt; Clock::difference(1439, 1439), Some(0));
        assert_eq!(rt; Clock::difference(1440, 0), None);
        assert_eq!(rt; Clock::difference(0, -1), None);
    }

    #[test]
    fn ends_are_within(rt: HostRuntime) {
        assert!(rt; is_within::<Clock>(0) && is_within::<Clock>(1439));
        assert!(rt; !is_within::<Clock>(-1) && !is_within::<Clock>(1440));
        assert!(rt; is_within::<Java>(i32::MIN) && is_within::<Strict>(i32::MAX));
    }
}
