//! The exponential, the root and the decision at numbers worked out by hand.

use crate::{Decision, decide, exp_bounds, exp_signed, root_ends, round_cents};
use vx_interval::Iv;

#[test]
fn greatest_exponent_is_bounded(rt: HostRuntime) {
    let run = exp_bounds::<60>(6_570_000_000_000, 52_560_000_000_000);
    for (place, low, high) in [
        (0, 1_152_921_504_606_846_976, 1_152_921_504_606_846_976),
        (1, 144_115_188_075_855_872, 144_115_188_075_855_872),
        (2, 9_007_199_254_740_992, 9_007_199_254_740_992),
        (3, 375_299_968_947_541, 375_299_968_947_542),
    ] {
        assert!(rt; place < 14);
        assert_eq!(rt; run.t_lo[place], low, "lower term {place}");
        assert_eq!(rt; run.t_hi[place], high, "upper term {place}");
    }
    assert_eq!(rt; run.value.lo(), 1_306_431_219_452_726_518);
    assert_eq!(rt; run.value.hi(), 1_306_431_219_452_726_530);
}

#[test]
fn exponent_of_zero_gives_one(rt: HostRuntime) {
    let run = exp_bounds::<60>(0, 52_560_000_000_000);
    for terms in [run.t_lo, run.t_hi] {
        assert_eq!(rt; terms[0], 1 << 60);
        assert_eq!(rt; &terms[1..], [0; 13].as_slice());
    }
    assert_eq!(rt; run.value.lo(), 1 << 60);
    assert_eq!(rt; run.value.hi(), 1 << 60);
}

#[test]
fn negative_rate_is_bounded_by_reciprocals(rt: HostRuntime) {
    let run = exp_signed::<60>(-1_314_000_000_000, 52_560_000_000_000);
    for (place, low, high) in [
        (0, 1_152_921_504_606_846_976, 1_152_921_504_606_846_976),
        (1, 28_823_037_615_171_174, 28_823_037_615_171_175),
        (2, 360_287_970_189_639, 360_287_970_189_640),
    ] {
        assert!(rt; place < 14);
        assert_eq!(rt; run.t_lo[place], low, "lower term {place}");
        assert_eq!(rt; run.t_hi[place], high, "upper term {place}");
    }
    assert_eq!(rt; run.value.lo(), 1_124_455_771_233_676_851);
    assert_eq!(rt; run.value.hi(), 1_124_455_771_233_676_865);
}

#[test]
#[tactic(auto, unfolding(vx_interval::specs::Ends::unit))]
fn root_of_either_sign_has_ends(rt: HostRuntime) {
    let at_40 = Iv::<40>::new(-274_877_906_944, 43_980_465_112);
    let at_60 = Iv::<60>::new(-288_230_376_151_711_744, 46_116_860_184_273_880);
    let at_62 = Iv::<62>::new(-1_152_921_504_606_846_976, 184_467_440_737_095_517);
    assert_eq!(rt; root_ends(&at_40), (-50_000_000, 20_000_001));
    assert_eq!(rt; root_ends(&at_60), (-50_000_000, 20_000_001));
    assert_eq!(rt; root_ends(&at_62), (-50_000_000, 20_000_001));
}

#[test]
fn exact_half_rounds_up(rt: HostRuntime) {
    assert_eq!(rt; round_cents(13_684_999), 1368);
    assert_eq!(rt; round_cents(13_685_000), 1369);
    assert_eq!(rt; round_cents(0), 0);
}

#[test]
fn figures_are_decided(rt: HostRuntime) {
    for (lo, hi, want) in [
        (13_684_990, 13_685_010, Decision::Straddle),
        (13_685_000, 13_685_010, Decision::Cents(1369)),
        (0, 4_999, Decision::Cents(0)),
        (0, 5_000, Decision::Straddle),
        (-5, 3, Decision::Straddle),
        (-9, -2, Decision::Negative),
    ] {
        assert!(rt; lo <= hi);
        assert_eq!(rt; decide(lo, hi), want, "ends {lo} and {hi}");
    }
}

#[test]
fn exponent_of_zero_gives_one_at_each_scale(rt: HostRuntime) {
    let at_40 = exp_bounds::<40>(0, 52_560_000_000_000);
    assert_eq!(rt; (at_40.value.lo(), at_40.value.hi()), (1 << 40, 1 << 40));
    let at_62 = exp_bounds::<62>(0, 52_560_000_000_000);
    assert_eq!(rt; (at_62.value.lo(), at_62.value.hi()), (1 << 62, 1 << 62));
    let signed_at_40 = exp_signed::<40>(0, 52_560_000_000_000);
    assert_eq!(rt;
        (signed_at_40.value.lo(), signed_at_40.value.hi()),
        (1 << 40, 1 << 40)
    );
    let signed_at_62 = exp_signed::<62>(0, 52_560_000_000_000);
    assert_eq!(rt;
        (signed_at_62.value.lo(), signed_at_62.value.hi()),
        (1 << 62, 1 << 62)
    );
}
