// What changes with p, the millionths of a tropical century since 1975.0: the coefficients of floored polynomials, in units of 0.0001 second of
// arc. Beside each stands the number that its source prints, of a century or of a century squared.
use secular::{Polynomial, SQUARE};

// The right ascension of the FK4 at 1975.0, its proper motion, and the change of that, of which half counts (001 section 3.1).
pub const RIGHT_ASCENSION: Polynomial = Polynomial {
    c0: 1_146_980_412, // 2.1240378h
    c1: 3_072_276, // 0.0056894h
    c2: 1_526_094, // 0.0028261h
    divisor: 2 * SQUARE,
};

// The declination, in the same way (001 section 3.1).
pub const DECLINATION: Polynomial = Polynomial {
    c0: 3_209_398_402, // 89.1499556°
    c1: -7_801, // −0.0002167°
    c2: -15_800, // −0.0004389°
    divisor: 2 * SQUARE,
};

// ζ, precession's first angle, from the equinox of 1975.0, where T0 is 0.75 (004).
pub const ZETA: Polynomial = Polynomial {
    c0: 0,
    c1: 23_052_970, // 2304.250″ + 1.396″·0.75 = 2305.297″
    c2: 3_020, // 0.302″
    divisor: SQUARE,
};

// What z, its last angle, has beyond ζ (004).
pub const Z_LESS_ZETA: Polynomial = Polynomial {
    c0: 0,
    c1: 0,
    c2: 7_910, // 0.791″
    divisor: SQUARE,
};

// θ, its second angle (004).
pub const THETA: Polynomial = Polynomial {
    c0: 0,
    c1: 20_040_423, // 2004.682″ − 0.853″·0.75 = 2004.04225″
    c2: -4_260, // −0.426″
    divisor: SQUARE,
};
