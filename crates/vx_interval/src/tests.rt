//! Each operation on intervals, at each scale.

use crate::Iv;

// The low and the high end, in units.
fn ends<const P: u32>(x: &Iv<P>) -> (i128, i128) {
    (x.lo(), x.hi())
}

#[test]
#[tactic(auto, unfolding(crate::specs::Ends::unit, crate::specs::Ends::magnitude, crate::specs::Rounding::floor_of, crate::specs::Rounding::ceiling_of))]
fn operations_at_scale_40(rt: HostRuntime) {
    let x = Iv::<40>::new(-549755813889, 549755813888);
    let y = Iv::<40>::new(-3, 5);
    assert_eq!(rt;
        ends(&Iv::<40>::exact(-2)),
        (-2199023255552, -2199023255552)
    );
    assert_eq!(rt; ends(&Iv::<40>::ratio(1, 3)), (366503875925, 366503875926));
    assert_eq!(rt; ends(&x.add(&y)), (-549755813892, 549755813893));
    assert_eq!(rt; ends(&x.sub(&y)), (-549755813894, 549755813891));
    assert_eq!(rt; ends(&x.scale(-2)), (-1099511627776, 1099511627778));
    assert_eq!(rt; ends(&x.mul(&y)), (-3, 3));
    assert_eq!(rt; ends(&x.square()), (0, 274877906946));
    assert_eq!(rt; ends(&x.over(7)), (-78536544842, 78536544842));
    assert_eq!(rt;
        ends(&x.rescale::<60>()),
        (-576460752304472064, 576460752303423488)
    );
}

#[test]
#[tactic(auto, unfolding(crate::specs::Ends::unit, crate::specs::Ends::magnitude, crate::specs::Rounding::floor_of, crate::specs::Rounding::ceiling_of))]
fn operations_at_scale_60(rt: HostRuntime) {
    let x = Iv::<60>::new(-576460752303423489, 576460752303423488);
    let y = Iv::<60>::new(-3, 5);
    assert_eq!(rt;
        ends(&Iv::<60>::exact(-2)),
        (-2305843009213693952, -2305843009213693952)
    );
    assert_eq!(rt;
        ends(&Iv::<60>::ratio(1, 3)),
        (384307168202282325, 384307168202282326)
    );
    assert_eq!(rt; ends(&x.add(&y)), (-576460752303423492, 576460752303423493));
    assert_eq!(rt; ends(&x.sub(&y)), (-576460752303423494, 576460752303423491));
    assert_eq!(rt;
        ends(&x.scale(-2)),
        (-1152921504606846976, 1152921504606846978)
    );
    assert_eq!(rt; ends(&x.mul(&y)), (-3, 3));
    assert_eq!(rt; ends(&x.square()), (0, 288230376151711746));
    assert_eq!(rt; ends(&x.over(7)), (-82351536043346213, 82351536043346213));
    assert_eq!(rt; ends(&x.rescale::<40>()), (-549755813889, 549755813888));
}

#[test]
#[tactic(auto, unfolding(crate::specs::Ends::unit, crate::specs::Ends::magnitude, crate::specs::Rounding::floor_of, crate::specs::Rounding::ceiling_of))]
fn operations_at_scale_62(rt: HostRuntime) {
    let x = Iv::<62>::new(-2305843009213693953, 2305843009213693952);
    let y = Iv::<62>::new(-3, 5);
    assert_eq!(rt;
        ends(&Iv::<62>::exact(-2)),
        (-9223372036854775808, -9223372036854775808)
    );
    assert_eq!(rt;
        ends(&Iv::<62>::ratio(1, 3)),
        (1537228672809129301, 1537228672809129302)
    );
    assert_eq!(rt;
        ends(&x.add(&y)),
        (-2305843009213693956, 2305843009213693957)
    );
    assert_eq!(rt;
        ends(&x.sub(&y)),
        (-2305843009213693958, 2305843009213693955)
    );
    assert_eq!(rt;
        ends(&x.scale(-2)),
        (-4611686018427387904, 4611686018427387906)
    );
    assert_eq!(rt; ends(&x.mul(&y)), (-3, 3));
    assert_eq!(rt; ends(&x.square()), (0, 1152921504606846978));
    assert_eq!(rt; ends(&x.over(7)), (-329406144173384851, 329406144173384851));
    assert_eq!(rt;
        ends(&x.rescale::<60>()),
        (-576460752303423489, 576460752303423488)
    );
}
