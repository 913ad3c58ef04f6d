// Draws and multipliers, worked out from their rules.
use super::*;

#[test]
fn the_first_draws_from_one(rt: HostRuntime) {
    for (n, expected) in [
        (0, 1),
        (1, 16807),
        (2, 282475249),
        (3, 1622650073),
        (4, 984943658),
    ] {
        assert_eq!(rt; draws(n, 1), expected);
    }
}

#[test]
fn any_number_is_drawn_from(rt: HostRuntime) {
    assert_eq!(rt; draw(0), 0);
    assert_eq!(rt; draw(MODULUS - 1), MODULUS - FACTOR);
    assert_eq!(rt; draw(MODULUS), 0);
    assert_eq!(rt; draw(u32::MAX), FACTOR);
}

#[test]
fn streams_have_their_multipliers(rt: HostRuntime) {
    assert_eq!(rt; multiplier(0), 1);
    assert_eq!(rt; multiplier(1), 1682791109);
    assert_eq!(rt; multiplier(2), times(1682791109, 1682791109));
    assert_eq!(rt; multiplier(255), 1618830598);
}
